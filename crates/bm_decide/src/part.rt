//! The frames of the part of a net on which what is asked rests.
ghost use Rattle.std.specs.Prelude.{◌≡◌, ◌≤◌, ◌++◌, ◌∷◌, [], map, IfOk};
ghost use Rattle.std.specs.List.{AllByRecursion};
ghost use Rattle.wn_net.specs.Net.{IsNode, AreNodes};
ghost use Rattle.wn_opt.specs.Cone.{IsCone, KeepsRuns};
ghost use Rattle.bm_unroll.specs.Frames.{AreChosen, AreDistinct, AreRead, HasRoots, HasWatch, IsChoice, IsFrames};
ghost use Rattle.bm_unroll.specs.Frames.{IsWithin, source_width};

use bm_unroll::{Frames, unroll};
use fv_text::{List, Memory};
use std::alloc::Global;
use wn_net::{Net, NodeId};
use wn_opt::{cone, cone_behind, place, places_at};

/// The assumptions, and the watched nodes behind them.
fn first_of(alloc: Global, net: &Net, watch: &[NodeId]) -> Result<Vec<NodeId>, Memory>
    ensures { IfOk result (λ made. made.items ≡ net.now.assumes ++ watch.now) }
{
    let mut first = Vec::new(alloc);
    first.extend_from_slice(net.assumes())?;
    first.extend_from_slice(watch)?;
    Ok(first)
}

/// The part of a net on which the assumptions and the watched nodes rest, and behind it what the bad node needs besides:
/// so nothing of the former has a number that depends on the bad node.
fn part_of(
    alloc: Global,
    net: &Net,
    bad: NodeId,
    watch: &[NodeId],
) -> Result<(Net, List<Option<NodeId>>), Memory>
    requires bad { IsNode net.now bad }
    requires watch { AreNodes net.now watch.now }
    ensures cone { IfOk result (λ r. IsCone net.now ((net.now.assumes ++ watch.now) ++ bad ∷ []) r.0 r.1) }
    ensures runs { IfOk result (λ r. KeepsRuns net.now ((net.now.assumes ++ watch.now) ++ bad ∷ []) r.0 r.1) }
{
    let _ = net.nodes();
    let first = first_of(alloc, net, watch)?;
    let ends = first.as_slice();
    let (part, table) = cone(alloc, net, ends)?;
    let (grown, places) = cone_behind(alloc, net, ends, part, table, bad)?;
    Ok((grown, places))
}

/// The frames of a net, as `unroll` makes them, of the part of it alone on which the assumptions, the watched nodes and
/// the bad node rest.
pub(crate) fn part_frames(
    alloc: Global,
    net: &Net,
    bad: NodeId,
    watch: &[NodeId],
    cycle: u32,
) -> Result<Frames, Memory>
    requires bad { IsNode net.now bad }
    requires watch { AreNodes net.now watch.now }
    requires within { IsWithin net.now }
    requires cycle { cycle ≤ 100 }
    ensures whole { IfOk result IsFrames }
    ensures roots { IfOk result (HasRoots net.now bad cycle) }
    ensures watch { IfOk result (HasWatch net.now watch.now cycle) }
    ensures sources { IfOk result (λ f. AllByRecursion (IsChoice net.now cycle) f.sources) }
    ensures widths { IfOk result (λ f. f.widths ≡ map (source_width net.now) f.sources) }
    ensures distinct { IfOk result (λ f. AreDistinct f.sources) }
    ensures chosen { IfOk result (λ f. AreChosen net.now f.widths f.sources) }
    ensures read { IfOk result AreRead }
{
    let _ = net.nodes();
    let (part, table) = part_of(alloc, net, bad, watch)?;
    let _ = part.nodes();
    let places = table.as_slice();
    let watched = places_at(alloc, places, watch)?;
    let shown = watched.as_slice();
    let last = place(places, bad);
    let frames = unroll(alloc, &part, last, shown, cycle)?;
    Ok(frames)
}
