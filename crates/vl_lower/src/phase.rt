//! Drivers settled, and clocked blocks at the clock's edge, each over cells.

ghost use Rattle.std.specs.Prelude.{◌≡◌, ℕ, List, [], true, All, IfOk, Some, slice_get};
ghost use Rattle.vl_mean.specs.FlatLaw.{IsDriver};
ghost use Rattle.vl_flow_spec.specs.Sequence.{is_settled};
ghost use Rattle.vl_lower_assign.specs.Frames.{AreCellsOf, cells_of};
ghost use Rattle.vl_lower_assign.specs.Tracks.{AreTracks};
ghost use Rattle.vl_lower_stmt.specs.Layout.{IsLayout};
ghost use Rattle.vl_lower_cell_laws.specs.Cycles.{SettlesAll, TicksAll};
ghost use Rattle.vl_lower.specs.Closing.{over};

use crate::settle::settle_all;
use crate::tick::tick_all;
use fv_text::{List, Memory};
use std::alloc::Global;
use vl_lower_assign::{Frame, Track, copy_tracks, tracks_over};
use vl_lower_stmt::Layout;
use vl_mean::Driver;
use wn_net::{Net, NodeId};

/// What a phase leaves: cells, and nodes that tell what it assumes.
#[derive(Drop)]
pub struct Phase {
    pub frame: Frame,
    pub assumed: List<NodeId>,
}

/// A frame of these cells, in which nothing has been written.
fn frame_over(
    alloc: Global,
    now: &[NodeId],
    next: &[NodeId],
    tracks: Vec<Track>,
) -> Result<Frame, Memory>
    ensures { IfOk result (λ frame. cells_of frame ≡ over now.now next.now tracks.items) }
{
    Ok(Frame {
        now: Vec::from_slice(alloc, now)?,
        next: Vec::from_slice(alloc, next)?,
        assumed: List::new(alloc),
        log: List::new(alloc),
        tracks,
    })
}

/// The drivers that aren't clocked blocks settled in their order, from cells with what is free in the cycle. `firsts` are
/// the first cells of the memories.
pub(crate) fn settle_cells(
    net: &mut Net,
    layout: Layout<'_>,
    cells: &[NodeId],
    firsts: &[u32],
    drivers: &[Driver],
    sequence: &[u32],
) -> Result<Phase, Memory>
    requires layout { IsLayout layout.decls.now layout.places.now }
    requires cells { AreCellsOf net.old layout.decls.now cells.now }
    requires drivers { All (λ x. IsDriver layout.decls.now x.what) drivers.now }
    requires sequence { (a i : ℕ) → slice_get sequence.now a ≡ Some i → is_settled (slice_get drivers.now i) ≡ true }
    ensures { IfOk result (λ phase. (tracks : List Track) × SettlesAll layout.entry.decls.now net.old net.new
        (over cells.now cells.now tracks)
        (over phase.frame.now.items phase.frame.next.items phase.frame.tracks.items) phase.assumed drivers.now
        sequence.now) }
{
    let tracks = tracks_over(layout.alloc, net, cells, firsts)?;
    let mut frame = frame_over(layout.alloc, cells, cells, tracks)?;
    let assumed = settle_all(net, layout, &mut frame, drivers, sequence)?;
    Ok(Phase { frame, assumed })
}

/// The clocked blocks at the clock's edge, over settled cells.
pub(crate) fn tick_cells(
    net: &mut Net,
    layout: Layout<'_>,
    settled: &Frame,
    drivers: &[Driver],
) -> Result<Phase, Memory>
    requires layout { IsLayout layout.decls.now layout.places.now }
    requires now { AreCellsOf net.old layout.decls.now settled.now.now.items }
    requires next { AreCellsOf net.old layout.decls.now settled.now.next.items }
    requires tracks { AreTracks net.old settled.now.next.items settled.now.tracks.items }
    requires drivers { All (λ x. IsDriver layout.decls.now x.what) drivers.now }
    ensures { IfOk result (λ phase. TicksAll layout.entry.decls.now net.old net.new
        (over settled.entry.now.now.items settled.entry.now.next.items settled.entry.now.tracks.items)
        (over phase.frame.now.items phase.frame.next.items phase.frame.tracks.items)
        phase.assumed drivers.now) }
{
    let tracks = copy_tracks(layout.alloc, settled.tracks.as_slice())?;
    let mut frame = frame_over(
        layout.alloc,
        settled.now.as_slice(),
        settled.next.as_slice(),
        tracks,
    )?;
    let assumed = tick_all(net, layout, &mut frame, drivers)?;
    Ok(Phase { frame, assumed })
}
