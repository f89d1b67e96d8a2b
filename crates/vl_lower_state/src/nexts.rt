//! Next nodes of registers.
#![tactic(auto, using(wn_net::proofs::Laws::additions))]

ghost use Rattle.std.specs.Prelude.{◌≡◌, IfOk};
ghost use Rattle.wn_net.specs.Changes.{AddsNodes, Keeps};
ghost use Rattle.vl_lower_state.specs.Nexts.{AreBitsOfCells, AreNexts, ShowBits, with_nexts};

use crate::bits::gather;
use fv_text::{List, Memory};
use std::alloc::Global;
use wn_net::{Net, NodeId, Spot};

/// For each spot the node of its bits, which are bits of the cell with this number.
pub fn gather_all(
    alloc: Global,
    net: &mut Net,
    cells: &[NodeId],
    spots: &[Spot],
    places: &[u32],
) -> Result<List<NodeId>, Memory>
    requires { AreBitsOfCells net.old cells.now spots.now places.now }
    ensures adds { AddsNodes net.old net.new }
    ensures shows { IfOk result (ShowBits net.old net.new cells.now spots.now places.now) }
{
    let mut nodes = List::new(alloc);
    for at in 0..spots.len() {
        let cell = cells[places[at] as usize];
        let node = gather(net, cell, spots[at].bits.as_slice())?;
        nodes.push(node)?;
    }
    Ok(nodes)
}

/// Gives each register its next node.
pub fn set_nexts(net: &mut Net, nodes: &[NodeId])
    requires { AreNexts net.old net.old.regs nodes.now }
    ensures new { net.new ≡ record net.old { regs = with_nexts nodes.now net.old.regs } }
    ensures keeps { Keeps net.old net.new }
{
    let count = net.regs().len();
    for at in 0..count {
        net.set_next(at as u32, nodes[at]);
    }
}
