ghost use Rattle.std.specs.Prelude.{◌≡◌};
ghost use Rattle.vl_size.specs.Size as size;
ghost use Rattle.vl_size.specs.Way as spec;

use vl_tree::{BinaryOperator, UnaryOperator};

/// Where the size of an operation comes from (IEEE 1364-2005, table 5-22).
#[derive(Debug, Clone, Copy, PartialEq, Eq)]
pub enum Way {
    /// The larger operand.
    Larger,
    /// The left operand.
    Left,
    /// One bit.
    One,
}

pub fn way_of(operator: BinaryOperator) -> Way
    ensures { result ≡ spec.way operator }
{
    match operator {
        BinaryOperator::Multiply
        | BinaryOperator::Divide
        | BinaryOperator::Remainder
        | BinaryOperator::Add
        | BinaryOperator::Subtract
        | BinaryOperator::BitwiseAnd
        | BinaryOperator::BitwiseXor
        | BinaryOperator::BitwiseXnor
        | BinaryOperator::BitwiseXnorCaretFirst
        | BinaryOperator::BitwiseOr => Way::Larger,
        BinaryOperator::ShiftLeft
        | BinaryOperator::ShiftRight
        | BinaryOperator::ArithmeticShiftLeft
        | BinaryOperator::ArithmeticShiftRight => Way::Left,
        BinaryOperator::Less
        | BinaryOperator::LessEqual
        | BinaryOperator::Greater
        | BinaryOperator::GreaterEqual
        | BinaryOperator::Equal
        | BinaryOperator::NotEqual
        | BinaryOperator::CaseEqual
        | BinaryOperator::CaseNotEqual
        | BinaryOperator::LogicalAnd
        | BinaryOperator::LogicalOr => Way::One,
    }
}

/// Whether it keeps its operand's size and sign; else it gives one bit.
pub fn keeps_size(operator: UnaryOperator) -> bool
    ensures { result ≡ spec.keeps_size operator }
{
    matches!(
        operator,
        UnaryOperator::Plus | UnaryOperator::Minus | UnaryOperator::BitwiseNot
    )
}

/// The size of the operation from those of its operands.
pub fn size_by(way: Way, m: u32, n: u32) -> u32
    ensures { result ≡ size.size_by way m n }
{
    match way {
        Way::Larger => m.max(n),
        Way::Left => m,
        Way::One => 1,
    }
}

/// Whether a divisor stands at its right.
pub fn divides(operator: BinaryOperator) -> bool
    ensures { result ≡ size.divides operator }
{
    matches!(operator, BinaryOperator::Divide | BinaryOperator::Remainder)
}
