//! Nodes one behind the other (IEEE 1364-2005, section 5.1.14).
#![tactic(auto, using(wn_net::proofs::Laws::additions))]

ghost use Rattle.std.specs.Prelude.{◌≡◌, ◌≤◌, ◌*◌, IfOk};
ghost use Rattle.vl_size.specs.Size as spec;
ghost use Rattle.wn_net.specs.Net.{IsNode, width_at, value_at};
ghost use Rattle.wn_net.specs.Changes.{AddsNodes, Shows};

use fv_text::Memory;
use wn_net::{Net, NodeId};

/// So many copies of a node, one behind the other.
pub(crate) fn copies(net: &mut Net, node: NodeId, count: u32) -> Result<NodeId, Memory>
    requires there { IsNode net.old node }
    requires some { 1 ≤ count }
    requires few { count * width_at net.old node ≤ 128 }
    ensures adds { AddsNodes net.old net.new }
    ensures shows { IfOk result (Shows net.old net.new (count * width_at net.old node)
        (λ g. spec.copies count (width_at net.old node) (value_at net.old g node))) }
{
    let mut all = node;
    let mut made = 1;
    while made < count {
        all = net.concat(all, node)?;
        made += 1;
    }
    Ok(all)
}
