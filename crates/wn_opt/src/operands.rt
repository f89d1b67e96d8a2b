//! What a node reads.
ghost use Rattle.std.specs.Prelude.{◌≡◌, ◌≤◌, take};
ghost use Rattle.wn_opt.specs.Needed.{operands};

use wn_net::{Node, NodeId};

/// The nodes that a node reads: the first `count`.
#[derive(Debug, Clone, Copy)]
pub(crate) struct Operands {
    pub(crate) ids: [NodeId; 3],
    pub(crate) count: usize,
}

pub(crate) fn operands_of(node: &Node) -> Operands
    ensures few { result.count ≤ 3 }
    ensures ids { take result.count result.ids ≡ operands node.now }
{
    let (ids, count) = match *node {
        Node::Konst(_) | Node::Input(_) | Node::Reg(_) => ([0, 0, 0], 0),
        Node::Read(_, a) | Node::Not(a) => ([a, 0, 0], 1),
        Node::Slice(a, _, _) | Node::Zext(a, _) | Node::Sext(a, _) => ([a, 0, 0], 1),
        Node::And(a, b)
        | Node::Or(a, b)
        | Node::Xor(a, b)
        | Node::Add(a, b)
        | Node::Sub(a, b)
        | Node::Mul(a, b)
        | Node::Eq(a, b)
        | Node::Ult(a, b)
        | Node::Slt(a, b)
        | Node::Shl(a, b)
        | Node::Lshr(a, b)
        | Node::Ashr(a, b)
        | Node::Concat(a, b) => ([a, b, 0], 2),
        Node::Mux(c, a, b) => ([c, a, b], 3),
    };
    Operands { ids, count }
}
