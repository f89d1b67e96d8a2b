//! The part of a net on which some nodes rest.
ghost use Rattle.std.specs.Prelude.{IfOk};
ghost use Rattle.wn_net.specs.Net.{AreNodes};
ghost use Rattle.wn_opt.specs.Cone.{IsCone, KeepsRuns};

use crate::copy::{copy_nodes, no_places};
use crate::frame::frame;
use crate::join::{join_assumes, join_mems, join_regs};
use crate::kept::whole;
use crate::marks::needed;
use fv_text::{List, Memory};
use std::alloc::Global;
use wn_net::{Net, NodeId};

/// The part of the net on which the roots rest, and the new number of each old node that they need.
///
/// A node is needed where it is a root, an operand of a needed node, the next value of a needed register, or a node of a
/// write of a needed memory; a register or a memory is needed where a needed node reads it. Inputs, registers and
/// memories keep their numbers, and inputs and registers their nodes. A register that isn't needed keeps its value; a
/// memory that isn't needed has no writes; an assumption stays where its node is needed. In every cycle of a run with
/// the same choices each needed node has its old value. Time and memory are linear in the net.
pub fn cone(
    alloc: Global,
    net: &Net,
    roots: &[NodeId],
) -> Result<(Net, List<Option<NodeId>>), Memory>
    requires { AreNodes net.now roots.now }
    ensures cone { IfOk result (λ r. IsCone net.now roots.now r.0 r.1) }
    ensures runs { IfOk result (λ r. KeepsRuns net.now roots.now r.0 r.1) }
{
    let marks = needed(alloc, net, roots)?;
    let mut part = frame(alloc, net)?;
    let nodes = marks.nodes.as_slice();
    let mut table = no_places(alloc, net.nodes().len())?;
    copy_nodes(&mut part, net, nodes, &mut table)?;
    let places = table.as_slice();
    join_regs(&mut part, net, nodes, marks.regs.as_slice(), places);
    join_mems(&mut part, net, nodes, marks.mems.as_slice(), places)?;
    join_assumes(&mut part, net, nodes, places)?;
    whole(net);
    whole(&part);
    Ok((part, List::from_vec(table)))
}
