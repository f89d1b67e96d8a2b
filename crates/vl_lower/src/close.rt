//! Next nodes of registers, writes of memories, and assumptions.

ghost use Rattle.std.specs.Prelude.{◌≡◌, ◌++◌, ℕ, List, OnOk};
ghost use Rattle.wn_net.specs.Changes.{Keeps};
ghost use Rattle.wn_net.specs.Net.{AreNodes, Netlist};
ghost use Rattle.vl_lower_spec.specs.Sources.{AreEach};
ghost use Rattle.vl_lower_state.specs.Nexts.{AreBitsOfCells, AreNexts, ShowBits};
ghost use Rattle.vl_lower_state.specs.Stores.{MayStore};
ghost use Rattle.vl_lower_assign.specs.Tracks.{AreTracks};
ghost use Rattle.vl_lower.specs.Closing.{Closes};

use fv_text::Memory;
use std::alloc::Global;
use vl_lower_assign::Track;
use vl_lower_state::{gather_all, set_nexts, store_words};
use wn_net::{Net, NodeId, Spot};

/// Gives registers and memories their cells of the next cycle: of each register the number of the cell whose bits it
/// is, of each memory that of its first cell. `tracks` are the writes that lead to the memories' cells.
pub fn close_cells(
    alloc: Global,
    net: &mut Net,
    cells: &[NodeId],
    tracks: &[Track],
    regs: &[Spot],
    register_cells: &[u32],
    memory_cells: &[u32],
) -> Result<(), Memory>
    requires bits { AreBitsOfCells net.old cells.now regs.now register_cells.now }
    requires nexts { (mid : Netlist) (nodes : List ℕ)
        → ShowBits net.old mid cells.now regs.now register_cells.now nodes → AreNexts mid net.old.regs nodes }
    requires tracks { AreTracks net.old cells.now tracks.now }
    requires stored { AreEach (MayStore net.old cells.now) net.old.mems memory_cells.now }
    ensures { OnOk result (Closes net.old net.new cells.now tracks.now regs.now register_cells.now memory_cells.now) }
{
    let nodes = gather_all(alloc, net, cells, regs, register_cells)?;
    set_nexts(net, nodes.as_slice());
    store_words(net, cells, tracks, memory_cells)?;
    Ok(())
}

/// Nodes that are to be other than 0 in each cycle, behind those that there are.
pub fn assume_all(net: &mut Net, nodes: &[NodeId]) -> Result<(), Memory>
    requires { AreNodes net.old nodes.now }
    ensures new { OnOk result (net.new ≡ record net.old { assumes = net.old.assumes ++ nodes.now }) }
    ensures keeps { Keeps net.old net.new }
{
    for at in 0..nodes.len() {
        net.assume(nodes[at])?;
    }
    Ok(())
}
