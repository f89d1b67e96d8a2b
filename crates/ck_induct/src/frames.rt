//! The clauses of frames.

ghost use Rattle.std.specs.Prelude.{◌≡◌, map, slice_index, IfOk};
ghost use Rattle.bb_blast.specs.Choice.{all_places};
ghost use Rattle.bb_blast.specs.Walk.{all_other_than_0, values_by};
ghost use Rattle.bb_clauses.specs.Models.{ModelsAreNumbers, read_at};
ghost use Rattle.bm_unroll.specs.Frames.{IsFrames};

use bb_cuts::clauses_of_nodes;
use bm_decide::RunClauses;
use bm_unroll::Frames;
use fv_text::Memory;
use std::alloc::Global;

/// The clauses that numbers of the sources make all roots of frames other than 0.
pub(crate) fn clauses_of_frames(alloc: Global, frames: Frames) -> Result<RunClauses, Memory>
    requires { IsFrames frames }
    ensures same { IfOk result (λ r. r.frames ≡ frames) }
    ensures models { IfOk result (λ r. ModelsAreNumbers frames.widths
        (read_at r.encoded.places frames.widths)
        (λ numbers. all_other_than_0 (values_by frames.widths frames.nodes numbers) frames.roots)
        (λ numbers. map (λ i. slice_index (values_by frames.widths frames.nodes numbers) i) frames.watch)
        r.encoded.watch r.encoded.formula) }
    ensures places { IfOk result (λ r. r.encoded.places ≡ all_places 0 0 frames.widths) }
{
    let widths = frames.widths.as_slice();
    let nodes = frames.nodes.as_slice();
    let roots = frames.roots.as_slice();
    let watched = frames.watch.as_slice();
    let encoded = clauses_of_nodes(alloc, widths, nodes, roots, watched)?;
    Ok(RunClauses { frames, encoded })
}
