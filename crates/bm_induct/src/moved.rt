//! The nodes of a net, by numbers that are higher.
#![tactic(auto, using(wn_net::proofs::Stays::theres), unfolding(wn_net::specs::Net::width_at, wn_net::specs::Net::value_at))]

ghost use Rattle.std.specs.Prelude.{◌≡◌, ℕ, ◌+◌, ◌<◌, ◌≤◌, ◌^◌, length, slice_index, IfOk, List};
ghost use Rattle.wn_net.specs.declared.node.Node.TheVariants as node;
ghost use Rattle.wn_net.specs.Width.{IsFitting};
ghost use Rattle.wn_net.specs.Net.{shape_of, widths_of};
ghost use Rattle.wn_net.specs.Changes.{Builds, width_in, value_in};
ghost use Rattle.bm_induct.specs.Rebuilt.{offset};
ghost use Rattle.bm_induct.specs.Stages as stages;

use crate::how::Rebuild;
use fv_text::Memory;
use wn_net::{Net, Node, NodeId};

/// What stands for a node that reads an input.
fn moved_input(net: &Net, how: Rebuild, index: u32) -> Node
    requires { index < length net.now.inputs }
    ensures { result ≡ stages.moved how net.now (node.Input index) }
{
    let input = net.inputs()[index as usize];
    let id = NodeId::from(index);
    if how.holds(input.kind) {
        Node::Xor(id, id)
    } else {
        Node::Zext(id, input.width)
    }
}

/// What stands for a node that reads a register.
fn moved_reg(net: &Net, index: u32) -> Node
    requires { index < length net.now.regs }
    ensures { result ≡ node.Zext (length net.now.inputs + index) (slice_index (shape_of net.now).regs index) }
{
    let reg = net.regs()[index as usize];
    let first = net.inputs().len() as NodeId;
    Node::Zext(first + NodeId::from(index), reg.width)
}

/// What stands for a node of the net behind the first so many. Numbers become higher by `more`.
pub(crate) fn moved(net: &Net, how: Rebuild, more: u64, node: &Node) -> Node
    requires more { more ≡ offset net.now }
    requires fits { (ws : List ℕ) × IsFitting (shape_of net.now) ws node.now × (length ws < 2 ^ 63) }
    requires few { more < 2 ^ 63 }
    ensures { result ≡ stages.moved how net.now node.now }
{
    match *node {
        Node::Konst(word) => Node::Konst(word),
        Node::Input(index) => moved_input(net, how, index),
        Node::Reg(index) => moved_reg(net, index),
        Node::Read(mem, a) => Node::Read(mem, a + more),
        Node::Not(a) => Node::Not(a + more),
        Node::And(a, b) => Node::And(a + more, b + more),
        Node::Or(a, b) => Node::Or(a + more, b + more),
        Node::Xor(a, b) => Node::Xor(a + more, b + more),
        Node::Add(a, b) => Node::Add(a + more, b + more),
        Node::Sub(a, b) => Node::Sub(a + more, b + more),
        Node::Mul(a, b) => Node::Mul(a + more, b + more),
        Node::Eq(a, b) => Node::Eq(a + more, b + more),
        Node::Ult(a, b) => Node::Ult(a + more, b + more),
        Node::Slt(a, b) => Node::Slt(a + more, b + more),
        Node::Shl(a, b) => Node::Shl(a + more, b + more),
        Node::Lshr(a, b) => Node::Lshr(a + more, b + more),
        Node::Ashr(a, b) => Node::Ashr(a + more, b + more),
        Node::Concat(a, b) => Node::Concat(a + more, b + more),
        Node::Mux(c, a, b) => Node::Mux(c + more, a + more, b + more),
        Node::Slice(a, low, width) => Node::Slice(a + more, low, width),
        Node::Zext(a, width) => Node::Zext(a + more, width),
        Node::Sext(a, width) => Node::Sext(a + more, width),
    }
}

/// Adds a node that fits, by its builder.
pub(crate) fn put_node(net: &mut Net, node: &Node) -> Result<NodeId, Memory>
    requires plain { stages.IsPlain node.now }
    requires fits { IsFitting (shape_of net.old) (widths_of net.old) node.now }
    ensures built { IfOk result (Builds net.old net.new node.now (width_in net.old node.now)
        (λ g. value_in net.old g node.now)) }
{
    match *node {
        Node::Konst(word) => net.konst(word),
        Node::Input(index) => Ok(NodeId::from(index)),
        Node::Reg(index) => Ok(NodeId::from(index)),
        Node::Read(mem, a) => net.read(mem, a),
        Node::Not(a) => net.not(a),
        Node::And(a, b) => net.and(a, b),
        Node::Or(a, b) => net.or(a, b),
        Node::Xor(a, b) => net.xor(a, b),
        Node::Add(a, b) => net.add(a, b),
        Node::Sub(a, b) => net.sub(a, b),
        Node::Mul(a, b) => net.mul(a, b),
        Node::Eq(a, b) => net.eq(a, b),
        Node::Ult(a, b) => net.ult(a, b),
        Node::Slt(a, b) => net.slt(a, b),
        Node::Shl(a, b) => net.shl(a, b),
        Node::Lshr(a, b) => net.lshr(a, b),
        Node::Ashr(a, b) => net.ashr(a, b),
        Node::Concat(a, b) => net.concat(a, b),
        Node::Mux(c, a, b) => net.mux(c, a, b),
        Node::Slice(a, low, width) => net.slice(a, low, width),
        Node::Zext(a, width) => net.zext(a, width),
        Node::Sext(a, width) => net.sext(a, width),
    }
}
