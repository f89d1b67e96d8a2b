//! Nodes that have one number in every cycle.
ghost use Rattle.std.specs.Prelude.{◌≡◌, IfSome, IfOk};
ghost use Rattle.wn_net.specs.Value.{Given};
ghost use Rattle.wn_net.specs.Net.{IsNode, IsNodeOf, value_at, width_at};
ghost use Rattle.wn_net.specs.Changes.{AddsNodes};
ghost use Rattle.wn_mem.specs.Words.{IsZero};

use fv_text::{Memory, Word};
use wn_net::{Net, Node, NodeId};

/// The number of a node that has the same one in every cycle by its kind.
pub(crate) fn constant_of(net: &Net, id: NodeId) -> Option<u128>
    requires { IsNode net.now id }
    ensures { IfSome result (λ n. (g : Given) → value_at net.now g id ≡ n) }
{
    let nodes = net.nodes();
    if let Node::Konst(word) = nodes[id as usize] {
        return Some(word.value());
    }
    None
}

/// The number 0 in the width of a node.
#[tactic(auto, using(wn_net::proofs::Laws::additions))]
pub(crate) fn zero_of(net: &mut Net, id: NodeId) -> Result<NodeId, Memory>
    requires { IsNode net.old id }
    ensures adds { AddsNodes net.old net.new }
    ensures there { IfOk result (IsNodeOf net.new (width_at net.old id)) }
    ensures zero { IfOk result (IsZero net.new) }
{
    let Some(zero) = Word::new(net.width(id), 0) else {
        return Ok(id);
    };
    let zero = net.konst(zero)?;
    Ok(zero)
}
