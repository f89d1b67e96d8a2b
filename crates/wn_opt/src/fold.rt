//! What a call for a node comes to.
ghost use Rattle.std.specs.Prelude.{◌≡◌};
ghost use Rattle.wn_net.specs.Width.{IsFitting};
ghost use Rattle.wn_net.specs.Net.{IsNode, shape_of, widths_of, width_at};
ghost use Rattle.wn_net.specs.Changes.{width_in};
ghost use Rattle.wn_opt.specs.Folding as spec;
ghost use Rattle.wn_opt.specs.Folding.{chosen, higher, lower, simpler};
ghost use Rattle.wn_opt.specs.Sound.{IsSound};
ghost use Rattle.wn_opt.specs.Table.{IsOperator};

use crate::kept::whole;
use crate::known::{known, number_of};
use wn_net::{Net, Node, NodeId};

/// What a call for a node comes to.
#[derive(Debug, Clone, Copy)]
pub enum Folded {
    /// A node that is there.
    Same(NodeId),
    /// A constant, by its width and its number.
    Number(u32, u128),
    /// This node.
    Kept(Node),
}

/// The two numbers, the lower one first.
fn in_order(a: NodeId, b: NodeId) -> (NodeId, NodeId)
    ensures first { result.0 ≡ lower a b }
    ensures last { result.1 ≡ higher a b }
{
    if b < a { (b, a) } else { (a, b) }
}

/// A choice of two nodes, where the condition may be a constant.
fn choice(net: &Net, c: NodeId, a: NodeId, b: NodeId) -> Folded
    requires { IsNode net.now c }
    ensures { result ≡ chosen net.now c a b }
{
    match known(net.nodes(), c) {
        Some(test) => Folded::Same(if test.value() == 1 { a } else { b }),
        None => Folded::Kept(Node::Mux(c, a, b)),
    }
}

/// An operator of one node with itself, or else the operator as it is.
fn unless_equal(a: NodeId, b: NodeId, equal: Folded, node: Node) -> Folded
    ensures { result ≡ spec.unless_equal a b equal node }
{
    if a == b { equal } else { Folded::Kept(node) }
}

/// What is left of a node of which not all operands are constants.
fn simpler(net: &Net, node: &Node) -> Folded
    requires { IsFitting (shape_of net.now) (widths_of net.now) node.now }
    ensures { result ≡ simpler net.now node.now }
{
    match *node {
        Node::And(a, b) => {
            let (low, high) = in_order(a, b);
            unless_equal(a, b, Folded::Same(a), Node::And(low, high))
        }
        Node::Or(a, b) => {
            let (low, high) = in_order(a, b);
            unless_equal(a, b, Folded::Same(a), Node::Or(low, high))
        }
        Node::Xor(a, b) => {
            let (low, high) = in_order(a, b);
            let zero = Folded::Number(net.width(a), 0);
            unless_equal(a, b, zero, Node::Xor(low, high))
        }
        Node::Add(a, b) => {
            let (low, high) = in_order(a, b);
            Folded::Kept(Node::Add(low, high))
        }
        Node::Mul(a, b) => {
            let (low, high) = in_order(a, b);
            Folded::Kept(Node::Mul(low, high))
        }
        Node::Eq(a, b) => {
            let (low, high) = in_order(a, b);
            unless_equal(a, b, Folded::Number(1, 1), Node::Eq(low, high))
        }
        Node::Sub(a, b) => unless_equal(a, b, Folded::Number(net.width(a), 0), *node),
        Node::Ult(a, b) | Node::Slt(a, b) => unless_equal(a, b, Folded::Number(1, 0), *node),
        Node::Mux(_, a, b) if a == b => Folded::Same(a),
        Node::Mux(c, a, b) => choice(net, c, a, b),
        _ => Folded::Kept(*node),
    }
}

/// The width of a node behind those of the net.
fn width_of(net: &Net, node: &Node) -> u32
    requires { IsFitting (shape_of net.now) (widths_of net.now) node.now }
    ensures { result ≡ width_in net.now node.now }
{
    match *node {
        Node::Konst(word) => word.width(),
        Node::Input(i) => net.inputs()[i as usize].width,
        Node::Reg(i) => net.regs()[i as usize].width,
        Node::Read(mem, _) => net.mems()[mem as usize].width,
        Node::Not(a) => net.width(a),
        Node::And(a, _) => net.width(a),
        Node::Or(a, _) => net.width(a),
        Node::Xor(a, _) => net.width(a),
        Node::Add(a, _) => net.width(a),
        Node::Sub(a, _) => net.width(a),
        Node::Mul(a, _) => net.width(a),
        Node::Shl(a, _) => net.width(a),
        Node::Lshr(a, _) => net.width(a),
        Node::Ashr(a, _) => net.width(a),
        Node::Eq(_, _) | Node::Ult(_, _) | Node::Slt(_, _) => 1,
        Node::Concat(a, b) => net.width(a) + net.width(b),
        Node::Mux(_, a, _) => net.width(a),
        Node::Slice(_, _, width) | Node::Zext(_, width) | Node::Sext(_, width) => width,
    }
}

/// What a call for an operator comes to.
fn fold_node(net: &Net, node: &Node) -> Folded
    requires { IsFitting (shape_of net.now) (widths_of net.now) node.now }
    ensures { result ≡ spec.folded net.now node.now }
{
    match number_of(net, node) {
        Some(number) => Folded::Number(width_of(net, node), number),
        None => simpler(net, node),
    }
}

/// What a call for an operator comes to, which stands for the operator.
pub(crate) fn sound_fold(net: &Net, node: &Node) -> Folded
    requires operator { IsOperator node.now }
    requires fits { IsFitting (shape_of net.now) (widths_of net.now) node.now }
    ensures value { result ≡ spec.folded net.now node.now }
    ensures sound { IsSound net.now node.now result }
{
    whole(net);
    fold_node(net, node)
}
