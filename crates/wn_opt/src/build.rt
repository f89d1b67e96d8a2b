//! Any operator, added to a net.
ghost use Rattle.std.specs.Prelude.{◌≡◌, length, IfOk, OnOk, OnErr};
ghost use Rattle.wn_net.specs.Width.{IsFitting};
ghost use Rattle.wn_net.specs.Net.{shape_of, widths_of};
ghost use Rattle.wn_net.specs.Changes.{with_node};
ghost use Rattle.wn_opt.specs.Table.{IsOperator};

use fv_text::Memory;
use wn_net::{Net, Node, NodeId};

/// Adds an operator that fits behind the nodes of the net.
pub(crate) fn build(net: &mut Net, node: Node) -> Result<NodeId, Memory>
    requires operator { IsOperator node }
    requires fits { IsFitting (shape_of net.old) (widths_of net.old) node }
    ensures last { IfOk result (λ id. id ≡ length net.old.nodes) }
    ensures new { OnOk result (net.new ≡ with_node net.old node) }
    ensures same { OnErr result (net.new ≡ net.old) }
{
    match node {
        Node::Konst(word) => Ok(net.konst(word)?),
        Node::Input(_) => unreachable!(),
        Node::Reg(_) => unreachable!(),
        Node::Read(mem, a) => Ok(net.read(mem, a)?),
        Node::Not(a) => Ok(net.not(a)?),
        Node::And(a, b) => Ok(net.and(a, b)?),
        Node::Or(a, b) => Ok(net.or(a, b)?),
        Node::Xor(a, b) => Ok(net.xor(a, b)?),
        Node::Add(a, b) => Ok(net.add(a, b)?),
        Node::Sub(a, b) => Ok(net.sub(a, b)?),
        Node::Mul(a, b) => Ok(net.mul(a, b)?),
        Node::Eq(a, b) => Ok(net.eq(a, b)?),
        Node::Ult(a, b) => Ok(net.ult(a, b)?),
        Node::Slt(a, b) => Ok(net.slt(a, b)?),
        Node::Shl(a, b) => Ok(net.shl(a, b)?),
        Node::Lshr(a, b) => Ok(net.lshr(a, b)?),
        Node::Ashr(a, b) => Ok(net.ashr(a, b)?),
        Node::Concat(a, b) => Ok(net.concat(a, b)?),
        Node::Mux(c, a, b) => Ok(net.mux(c, a, b)?),
        Node::Slice(a, low, width) => Ok(net.slice(a, low, width)?),
        Node::Zext(a, width) => Ok(net.zext(a, width)?),
        Node::Sext(a, width) => Ok(net.sext(a, width)?),
    }
}
