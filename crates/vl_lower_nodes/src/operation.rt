//! Operators between two operands.
#![tactic(auto, using(wn_net::proofs::Laws::additions, crate::proofs::FitLemmas::tests))]

ghost use Rattle.std.specs.Prelude.{◌≡◌, ◌==◌, not, Bool, false, bit_xor, IfOk};
ghost use Rattle.fv_bits.specs.Bits as bits;
ghost use Rattle.vl_size.specs.Size as spec;
ghost use Rattle.vl_size.specs.Way.{way};
ghost use Rattle.vl_size.specs.declared.way.Way.TheVariants as way_as;
ghost use Rattle.wn_net.specs.Net.{IsNode, IsNodeOf, width_at, value_at};
ghost use Rattle.wn_net.specs.Changes.{AddsNodes, Shows};

use fv_text::Memory;
use vl_tree::BinaryOperator;
use wn_net::{Net, NodeId};

/// Both at one width. A quotient and a remainder are no nodes: they are of constants.
pub fn arithmetic(
    net: &mut Net,
    operator: BinaryOperator,
    a: NodeId,
    b: NodeId,
) -> Result<NodeId, Memory>
    requires left { IsNode net.old a }
    requires right { IsNodeOf net.old (width_at net.old a) b }
    requires larger { way operator ≡ way_as.Larger }
    requires whole { spec.divides operator ≡ false }
    ensures adds { AddsNodes net.old net.new }
    ensures shows { (signed : Bool) → IfOk result (Shows net.old net.new (width_at net.old a)
        (λ g. spec.arithmetic operator (width_at net.old a) signed (value_at net.old g a) (value_at net.old g b))) }
{
    match operator {
        BinaryOperator::Multiply => Ok(net.mul(a, b)?),
        BinaryOperator::Add => Ok(net.add(a, b)?),
        BinaryOperator::Subtract => Ok(net.sub(a, b)?),
        BinaryOperator::BitwiseAnd => Ok(net.and(a, b)?),
        BinaryOperator::BitwiseOr => Ok(net.or(a, b)?),
        BinaryOperator::BitwiseXor => Ok(net.xor(a, b)?),
        _ => Ok(alike(net, a, b)?),
    }
}

/// Each bit of both or of none.
fn alike(net: &mut Net, a: NodeId, b: NodeId) -> Result<NodeId, Memory>
    requires left { IsNode net.old a }
    requires right { IsNodeOf net.old (width_at net.old a) b }
    ensures adds { AddsNodes net.old net.new }
    ensures shows { IfOk result (Shows net.old net.new (width_at net.old a)
        (λ g. bits.complement (width_at net.old a) (bit_xor (value_at net.old g a) (value_at net.old g b)))) }
{
    let either = net.xor(a, b)?;
    let alike = net.not(either)?;
    Ok(alike)
}

/// The first by its own width, moved by the second, of any width (IEEE 1364-2005, section 5.1.12).
pub fn shifted(
    net: &mut Net,
    operator: BinaryOperator,
    signed: bool,
    a: NodeId,
    b: NodeId,
) -> Result<NodeId, Memory>
    requires left { IsNode net.old a }
    requires right { IsNode net.old b }
    ensures adds { AddsNodes net.old net.new }
    ensures shows { IfOk result (Shows net.old net.new (width_at net.old a)
        (λ g. spec.shifted operator (width_at net.old a) signed (value_at net.old g a) (value_at net.old g b))) }
{
    match operator {
        BinaryOperator::ShiftRight => Ok(net.lshr(a, b)?),
        BinaryOperator::ArithmeticShiftRight => Ok(right_by_sign(net, signed, a, b)?),
        _ => Ok(net.shl(a, b)?),
    }
}

/// Filled with the sign bit where it is signed.
fn right_by_sign(net: &mut Net, signed: bool, a: NodeId, b: NodeId) -> Result<NodeId, Memory>
    requires left { IsNode net.old a }
    requires right { IsNode net.old b }
    ensures adds { AddsNodes net.old net.new }
    ensures shows { IfOk result (Shows net.old net.new (width_at net.old a)
        (λ g. bits.right_by_sign (width_at net.old a) signed (value_at net.old g a) (value_at net.old g b))) }
{
    if signed {
        Ok(net.ashr(a, b)?)
    } else {
        Ok(net.lshr(a, b)?)
    }
}

/// 1 where the first is less.
fn less(net: &mut Net, signed: bool, a: NodeId, b: NodeId) -> Result<NodeId, Memory>
    requires left { IsNode net.old a }
    requires right { IsNodeOf net.old (width_at net.old a) b }
    ensures adds { AddsNodes net.old net.new }
    ensures shows { IfOk result (Shows net.old net.new 1
        (λ g. bits.bit (bits.is_less (width_at net.old a) signed (value_at net.old g a) (value_at net.old g b)))) }
{
    if signed {
        Ok(net.slt(a, b)?)
    } else {
        Ok(net.ult(a, b)?)
    }
}

/// 1 where the first isn't less.
fn not_less(net: &mut Net, signed: bool, a: NodeId, b: NodeId) -> Result<NodeId, Memory>
    requires left { IsNode net.old a }
    requires right { IsNodeOf net.old (width_at net.old a) b }
    ensures adds { AddsNodes net.old net.new }
    ensures shows { IfOk result (Shows net.old net.new 1
        (λ g. bits.bit (not (bits.is_less (width_at net.old a) signed (value_at net.old g a)
        (value_at net.old g b))))) }
{
    let less = less(net, signed, a, b)?;
    let turned = net.not(less)?;
    Ok(turned)
}

/// 1 where the numbers differ.
fn differ(net: &mut Net, a: NodeId, b: NodeId) -> Result<NodeId, Memory>
    requires left { IsNode net.old a }
    requires right { IsNodeOf net.old (width_at net.old a) b }
    ensures adds { AddsNodes net.old net.new }
    ensures shows { IfOk result (Shows net.old net.new 1
        (λ g. bits.bit (not (value_at net.old g a == value_at net.old g b)))) }
{
    let same = net.eq(a, b)?;
    let turned = net.not(same)?;
    Ok(turned)
}

/// 1 where the comparison holds, both at one width and read by one sign.
pub fn compared(
    net: &mut Net,
    operator: BinaryOperator,
    signed: bool,
    a: NodeId,
    b: NodeId,
) -> Result<NodeId, Memory>
    requires left { IsNode net.old a }
    requires right { IsNodeOf net.old (width_at net.old a) b }
    ensures adds { AddsNodes net.old net.new }
    ensures shows { IfOk result (Shows net.old net.new 1
        (λ g. bits.bit (spec.compared operator (width_at net.old a) signed (value_at net.old g a)
        (value_at net.old g b)))) }
{
    match operator {
        BinaryOperator::Less => Ok(less(net, signed, a, b)?),
        BinaryOperator::LessEqual => Ok(not_less(net, signed, b, a)?),
        BinaryOperator::Greater => Ok(less(net, signed, b, a)?),
        BinaryOperator::GreaterEqual => Ok(not_less(net, signed, a, b)?),
        BinaryOperator::Equal | BinaryOperator::CaseEqual => Ok(net.eq(a, b)?),
        _ => Ok(differ(net, a, b)?),
    }
}
