ghost use Rattle.std.specs.Prelude.{◌≡◌, ◌+◌, ◌*◌, ℕ};
ghost use Rattle.vl_mean.specs.ConstantFaults.{capped};
ghost use Rattle.vl_flow_spec.specs.Weight as spec;
ghost use Rattle.vl_flow_weight.specs.Gates.{gates_at};

use vl_mean::widths::plus;
use vl_tree::{BinaryOperator, UnaryOperator};

/// Gates by the number of bits that an expression has from its context, each number up to `2^64 - 1`.
#[derive(Debug, Clone, Copy)]
pub struct Gates {
    pub fixed: u64,
    /// For each bit.
    pub per_bit: u64,
    /// For the square of the bits.
    pub per_square: u64,
}

/// The product; at the limit where it passes it.
pub(crate) fn times(m: u64, n: u64) -> u64
    ensures { result ≡ capped (m * n) }
{
    m.saturating_mul(n)
}

impl Gates {
    /// So many, whatever the bits.
    pub(crate) fn fixed(count: u64) -> Gates
        ensures { (n : ℕ) → gates_at result n ≡ count }
    {
        Gates {
            fixed: count,
            per_bit: 0,
            per_square: 0,
        }
    }

    /// So many for each bit.
    pub(crate) fn per_bit(count: u64) -> Gates
        ensures { (n : ℕ) → gates_at result n ≡ capped (count * n) }
    {
        Gates {
            fixed: 0,
            per_bit: count,
            per_square: 0,
        }
    }

    /// With so many bits.
    #[tactic(auto, using(crate::proofs::Sums::at_bits))]
    pub fn at(&self, bits: u64) -> u64
        ensures { result ≡ gates_at self.now bits }
    {
        let linear = times(self.per_bit, bits);
        let square = times(times(self.per_square, bits), bits);
        plus(plus(self.fixed, linear), square)
    }

    /// Both together.
    #[tactic(auto, using(crate::proofs::Sums::both))]
    pub fn with(&self, other: &Gates) -> Gates
        ensures { (n : ℕ) → gates_at result n ≡ capped (gates_at self.now n + gates_at other.now n) }
    {
        Gates {
            fixed: plus(self.fixed, other.fixed),
            per_bit: plus(self.per_bit, other.per_bit),
            per_square: plus(self.per_square, other.per_square),
        }
    }
}

/// An operation on the bits.
#[tactic(auto, using(crate::proofs::Sums::eight_squares))]
pub fn operation(operator: BinaryOperator) -> Gates
    ensures { (n : ℕ) → gates_at result n ≡ capped (spec.operation_weight operator n) }
{
    match operator {
        BinaryOperator::Multiply => Gates {
            fixed: 0,
            per_bit: 0,
            per_square: 8,
        },
        BinaryOperator::Add
        | BinaryOperator::Subtract
        | BinaryOperator::Less
        | BinaryOperator::LessEqual
        | BinaryOperator::Greater
        | BinaryOperator::GreaterEqual
        | BinaryOperator::ShiftLeft
        | BinaryOperator::ShiftRight
        | BinaryOperator::ArithmeticShiftLeft
        | BinaryOperator::ArithmeticShiftRight => Gates::per_bit(8),
        BinaryOperator::Divide
        | BinaryOperator::Remainder
        | BinaryOperator::BitwiseAnd
        | BinaryOperator::BitwiseXor
        | BinaryOperator::BitwiseXnor
        | BinaryOperator::BitwiseXnorCaretFirst
        | BinaryOperator::BitwiseOr
        | BinaryOperator::Equal
        | BinaryOperator::NotEqual
        | BinaryOperator::CaseEqual
        | BinaryOperator::CaseNotEqual
        | BinaryOperator::LogicalAnd
        | BinaryOperator::LogicalOr => Gates::per_bit(1),
    }
}

/// An operation on one operand.
pub fn unary_operation(operator: UnaryOperator) -> Gates
    ensures { (n : ℕ) → gates_at result n ≡ capped (spec.unary_weight operator n) }
{
    match operator {
        UnaryOperator::Plus | UnaryOperator::Minus => Gates::per_bit(8),
        _ => Gates::per_bit(1),
    }
}
