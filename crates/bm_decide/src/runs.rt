//! The clauses of the runs of a net.
ghost use Rattle.std.specs.Prelude.{◌≡◌, ◌≤◌, length, map, slice_index, IfOk};
ghost use Rattle.std.specs.List.{AllByRecursion};
ghost use Rattle.wn_net.specs.Net.{IsNode, AreNodes};
ghost use Rattle.bb_blast.specs.Choice.{all_places};
ghost use Rattle.bb_blast.specs.Walk.{widths_by};
ghost use Rattle.bb_clauses.specs.Models.{read_at};
ghost use Rattle.bm_unroll.specs.Frames.{AreDistinct, HasWatch, IsBadRun, IsChoice, IsFrames, IsWithin};
ghost use Rattle.bm_unroll.specs.Frames.{source_width};
ghost use Rattle.bm_decide.specs.Runs.{ModelsAreRuns, values_in};

use crate::part::part_frames;
use bb_cuts::{NodeClauses, clauses_of_nodes};
use bm_unroll::Frames;
use fv_text::Memory;
use std::alloc::Global;
use wn_net::{Net, NodeId};

/// Clauses, and the frames that they were made of.
#[derive(Debug, Drop)]
pub struct RunClauses {
    pub frames: Frames,
    /// A place names its source by the number in the list of the frames.
    pub encoded: NodeClauses,
}

/// The clauses of a net's runs up to a cycle, and the verdict behind them, which is true exactly in the runs that meet
/// the assumptions up to the cycle and have the bad node other than 0 in it.
pub fn clauses_of_runs(
    alloc: Global,
    net: &Net,
    bad: NodeId,
    watch: &[NodeId],
    cycle: u32,
) -> Result<RunClauses, Memory>
    requires bad { IsNode net.now bad }
    requires watch { AreNodes net.now watch.now }
    requires within { IsWithin net.now }
    requires cycle { cycle ≤ 100 }
    ensures models { IfOk result (λ r. ModelsAreRuns net.now (IsBadRun net.now bad cycle)
        (values_in net.now cycle watch.now) r.frames.sources (read_at r.encoded.places r.frames.widths)
        r.encoded.watch r.encoded.formula) }
    ensures places { IfOk result (λ r. r.encoded.places ≡ all_places 0 0 r.frames.widths) }
    ensures frames { IfOk result (λ r. IsFrames r.frames) }
    ensures watch { IfOk result (λ r. HasWatch net.now watch.now cycle r.frames) }
    ensures bits { IfOk result (λ r. map length r.encoded.watch
        ≡ map (λ i. slice_index (widths_by r.frames.widths r.frames.nodes) i) r.frames.watch) }
    ensures sources { IfOk result (λ r. AllByRecursion (IsChoice net.now cycle) r.frames.sources) }
    ensures widths { IfOk result (λ r. r.frames.widths ≡ map (source_width net.now) r.frames.sources) }
    ensures distinct { IfOk result (λ r. AreDistinct r.frames.sources) }
{
    let frames = part_frames(alloc, net, bad, watch, cycle)?;
    let widths = frames.widths.as_slice();
    let nodes = frames.nodes.as_slice();
    let roots = frames.roots.as_slice();
    let watched = frames.watch.as_slice();
    let encoded = clauses_of_nodes(alloc, widths, nodes, roots, watched)?;
    Ok(RunClauses { frames, encoded })
}
