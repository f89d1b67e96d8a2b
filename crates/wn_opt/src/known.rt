//! The numbers of constants, and of operators of constants.
ghost use Rattle.std.specs.Prelude.{◌≡◌, ◌<◌, Some, length, slice_get, MatchOption, false, [], ◌∷◌};
ghost use Rattle.wn_net.specs.Width.{IsFitting};
ghost use Rattle.wn_net.specs.Net.{IsNet, shape_of, widths_of};
ghost use Rattle.wn_net.specs.declared.node.Node.TheVariants as kind;
ghost use Rattle.wn_opt.specs.Folding.{is_constant};
ghost use Rattle.wn_opt.specs.Needed.{operands};
ghost use Rattle.wn_opt.specs.Sound.{IsNumberOf, one_value, two_value};

use crate::operands::operands_of;
use fv_bits::{
    arithmetic_right, bit, complement, difference, is_less_signed, joined, part, product,
    shifted_left, shifted_right, sign_extended, sum,
};
use fv_text::Word;
use wn_net::{Net, Node, NodeId};

/// The constant of this number.
pub(crate) fn known(nodes: &[Node], id: NodeId) -> Option<Word>
    requires { id < length nodes.now }
    ensures { MatchOption result (is_constant (slice_get nodes.now id) ≡ false)
        (λ w. slice_get nodes.now id ≡ Some (kind.Konst w)) }
{
    match nodes[id as usize] {
        Node::Konst(word) => Some(word),
        _ => None,
    }
}

/// The number of a node that reads one constant; None where it is a memory's word.
fn of_one(net: &Net, node: &Node, a: NodeId, x: Word) -> Option<u128>
    requires whole { IsNet net.now }
    requires fits { IsFitting (shape_of net.now) (widths_of net.now) node.now }
    requires one { operands node.now ≡ a ∷ [] }
    requires known { slice_get net.now.nodes a ≡ Some (kind.Konst x) }
    ensures { result ≡ one_value node.now x }
{
    match *node {
        Node::Not(_) => Some(complement(x.width(), x.value())),
        Node::Slice(_, low, width) => Some(part(low, width, x.value())),
        Node::Zext(_, _) => Some(x.value()),
        Node::Sext(_, width) => Some(sign_extended(x.width(), width, x.value())),
        _ => None,
    }
}

/// The number of an operator of two constants.
fn of_two(net: &Net, node: &Node, a: NodeId, b: NodeId, x: Word, y: Word) -> u128
    requires whole { IsNet net.now }
    requires fits { IsFitting (shape_of net.now) (widths_of net.now) node.now }
    requires two { operands node.now ≡ a ∷ b ∷ [] }
    requires left { slice_get net.now.nodes a ≡ Some (kind.Konst x) }
    requires right { slice_get net.now.nodes b ≡ Some (kind.Konst y) }
    ensures { result ≡ two_value node.now x y }
{
    let width = x.width();
    let left = x.value();
    let right = y.value();
    match *node {
        Node::And(_, _) => left & right,
        Node::Or(_, _) => left | right,
        Node::Xor(_, _) => left ^ right,
        Node::Add(_, _) => sum(width, left, right),
        Node::Sub(_, _) => difference(width, left, right),
        Node::Mul(_, _) => product(width, left, right),
        Node::Eq(_, _) => bit(left == right),
        Node::Ult(_, _) => bit(left < right),
        Node::Slt(_, _) => bit(is_less_signed(width, left, right)),
        Node::Shl(_, _) => shifted_left(width, left, right),
        Node::Lshr(_, _) => shifted_right(left, right),
        Node::Ashr(_, _) => arithmetic_right(width, left, right),
        Node::Concat(_, _) => joined(width, y.width(), left, right),
        _ => 0,
    }
}

/// The number of an operator that reads one node, where that is a constant.
fn number_of_one(net: &Net, node: &Node, a: NodeId) -> Option<u128>
    requires fits { IsFitting (shape_of net.now) (widths_of net.now) node.now }
    requires one { operands node.now ≡ a ∷ [] }
    ensures number { IsNumberOf net.now node.now result }
    ensures whole { IsNet net.now }
{
    let x = known(net.nodes(), a)?;
    of_one(net, node, a, x)
}

/// The number of an operator that reads two nodes, where these are constants.
fn number_of_two(net: &Net, node: &Node, a: NodeId, b: NodeId) -> Option<u128>
    requires fits { IsFitting (shape_of net.now) (widths_of net.now) node.now }
    requires two { operands node.now ≡ a ∷ b ∷ [] }
    ensures number { IsNumberOf net.now node.now result }
    ensures whole { IsNet net.now }
{
    let x = known(net.nodes(), a)?;
    let y = known(net.nodes(), b)?;
    Some(of_two(net, node, a, b, x, y))
}

/// The number of a choice between two nodes, where these and the condition are constants.
fn number_of_choice(net: &Net, node: &Node, c: NodeId, a: NodeId, b: NodeId) -> Option<u128>
    requires fits { IsFitting (shape_of net.now) (widths_of net.now) node.now }
    requires three { operands node.now ≡ c ∷ a ∷ b ∷ [] }
    ensures number { IsNumberOf net.now node.now result }
    ensures whole { IsNet net.now }
{
    let test = known(net.nodes(), c)?;
    let x = known(net.nodes(), a)?;
    let y = known(net.nodes(), b)?;
    Some(if test.value() == 1 {
        x.value()
    } else {
        y.value()
    })
}

/// The number of an operator whose operands are all constants; None where they aren't, or the node is no operator.
pub(crate) fn number_of(net: &Net, node: &Node) -> Option<u128>
    requires { IsFitting (shape_of net.now) (widths_of net.now) node.now }
    ensures { IsNumberOf net.now node.now result }
{
    let reads = operands_of(node);
    let ids = reads.ids;
    match reads.count {
        1 => number_of_one(net, node, ids[0]),
        2 => number_of_two(net, node, ids[0], ids[1]),
        3 => number_of_choice(net, node, ids[0], ids[1], ids[2]),
        _ => None,
    }
}
