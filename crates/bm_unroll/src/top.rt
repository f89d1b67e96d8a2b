//! The frames of a net.
ghost use Rattle.std.specs.Prelude.{◌≡◌, ◌≤◌, map, IfOk};
ghost use Rattle.std.specs.List.{AllByRecursion};
ghost use Rattle.wn_net.specs.Net.{IsNode, AreNodes};
ghost use Rattle.bm_unroll.specs.Frames.{AreChosen, AreDistinct, AreRead, HasRoots, HasWatch, IsChoice, IsFrames};
ghost use Rattle.bm_unroll.specs.Frames.{IsWithin, source_width};

use crate::cycles::walk_cycles;
use crate::draft::Draft;
use crate::frames::Frames;
use crate::inputs::input_rows;
use crate::memory::begin;
use crate::shrink::shrink;
use crate::starts::starts;
use fv_text::Memory;
use std::alloc::Global;
use wn_net::{Net, NodeId};

/// The frames of cycles 0 up to one: under each choice the roots are all other than 0 exactly where the run with that
/// choice meets the assumptions up to the cycle and has the bad node other than 0 in it. Equal nodes are one, and a
/// source is listed only where a root or a watched node reads it. The only error is that no memory is left.
pub fn unroll(
    alloc: Global,
    net: &Net,
    bad: NodeId,
    watch: &[NodeId],
    cycle: u32,
) -> Result<Frames, Memory>
    requires bad { IsNode net.now bad }
    requires watch { AreNodes net.now watch.now }
    requires within { IsWithin net.now }
    requires cycle { cycle ≤ 100 }
    ensures whole { IfOk result IsFrames }
    ensures roots { IfOk result (HasRoots net.now bad cycle) }
    ensures watch { IfOk result (HasWatch net.now watch.now cycle) }
    ensures sources { IfOk result (λ f. AllByRecursion (IsChoice net.now cycle) f.sources) }
    ensures widths { IfOk result (λ f. f.widths ≡ map (source_width net.now) f.sources) }
    ensures distinct { IfOk result (λ f. AreDistinct f.sources) }
    ensures chosen { IfOk result (λ f. AreChosen net.now f.widths f.sources) }
    ensures read { IfOk result AreRead }
{
    let mut draft = Draft::new(alloc);
    let words = starts(alloc, &mut draft, net)?;
    let rows = input_rows(alloc, &mut draft, net, cycle)?;
    let rows = rows.as_slice();
    let start = begin(alloc, net, words)?;
    let walked = walk_cycles(alloc, &mut draft.net, net, rows, cycle, start, bad, watch)?;
    let frames = shrink(alloc, draft, walked)?;
    Ok(frames)
}
