//! What operators make of numbers of a width of at most 128 bits (IEEE 1364-2005, section 5.1).
ghost use Rattle.std.specs.Prelude.{◌≡◌, ◌<◌, ◌≤◌, ◌^◌};
ghost use Rattle.vl_size.specs.Size as spec;

use fv_bits::{
    complement, difference, is_less, ones, parity, product, quotient, remainder, right_by_sign,
    shifted_left, shifted_right, sum,
};
use vl_tree::{BinaryOperator, UnaryOperator};

/// Of the operators whose operands both come from the context.
#[tactic(auto, using(fv_bits::proofs::Limits::bitwise))]
pub fn arithmetic(operator: BinaryOperator, width: u32, signed: bool, m: u128, n: u128) -> u128
    requires few { width ≤ 128 }
    requires left { m < 2 ^ width }
    requires right { n < 2 ^ width }
    ensures value { result ≡ spec.arithmetic operator width signed m n }
    ensures fits { result < 2 ^ width }
{
    match operator {
        BinaryOperator::Multiply => product(width, m, n),
        BinaryOperator::Divide => quotient(width, signed, m, n),
        BinaryOperator::Remainder => remainder(width, signed, m, n),
        BinaryOperator::Add => sum(width, m, n),
        BinaryOperator::Subtract => difference(width, m, n),
        BinaryOperator::BitwiseAnd => m & n,
        BinaryOperator::BitwiseXor => m ^ n,
        BinaryOperator::BitwiseXnor | BinaryOperator::BitwiseXnorCaretFirst => complement(
            width,
            m ^ n,
        ),
        BinaryOperator::BitwiseOr => m | n,
        _ => 0,
    }
}

/// Of the shifts; another operator counts as a shift to the left.
#[tactic(auto, using(fv_bits::proofs::Limits::bits))]
pub fn shifted(operator: BinaryOperator, width: u32, signed: bool, n: u128, by: u128) -> u128
    requires few { width ≤ 128 }
    requires fits { n < 2 ^ width }
    ensures value { result ≡ spec.shifted operator width signed n by }
    ensures fits { result < 2 ^ width }
{
    match operator {
        BinaryOperator::ShiftRight => shifted_right(n, by),
        BinaryOperator::ArithmeticShiftRight => right_by_sign(width, signed, n, by),
        _ => shifted_left(width, n, by),
    }
}

/// Of the comparisons; another operator counts as `!=`.
pub fn compared(operator: BinaryOperator, width: u32, signed: bool, m: u128, n: u128) -> bool
    requires few { width ≤ 128 }
    requires left { m < 2 ^ width }
    requires right { n < 2 ^ width }
    ensures { result ≡ spec.compared operator width signed m n }
{
    match operator {
        BinaryOperator::Less => is_less(width, signed, m, n),
        BinaryOperator::LessEqual => !is_less(width, signed, n, m),
        BinaryOperator::Greater => is_less(width, signed, n, m),
        BinaryOperator::GreaterEqual => !is_less(width, signed, m, n),
        BinaryOperator::Equal | BinaryOperator::CaseEqual => m == n,
        _ => m != n,
    }
}

/// The bits of an operand, joined to one by `!` or a reduction; another operator counts as `~^`.
pub fn reduced(operator: UnaryOperator, width: u32, n: u128) -> bool
    requires { width ≤ 128 }
    ensures { result ≡ spec.reduced operator width n }
{
    match operator {
        UnaryOperator::LogicalNot | UnaryOperator::ReductionNor => n == 0,
        UnaryOperator::ReductionAnd => n == ones(width),
        UnaryOperator::ReductionNand => n != ones(width),
        UnaryOperator::ReductionOr => n != 0,
        UnaryOperator::ReductionXor => parity(width, n),
        _ => !parity(width, n),
    }
}
