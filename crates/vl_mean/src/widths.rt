//! Numbers of bits without a limit, up to `2^64 - 1`, of operations from those of their operands; bounds and counts.
ghost use Rattle.std.specs.Prelude.{◌≡◌, ◌+◌, ◌*◌, Some, None, if◌then◌else◌};
ghost use Rattle.fv_bits.specs.Bits.{as_int};
ghost use Rattle.vl_size.specs.Size as size_spec;
ghost use Rattle.vl_size.specs.Size.{some_bits};
ghost use Rattle.vl_size.specs.Way.{way};
ghost use Rattle.vl_mean.specs.ConstantFaults as spec;

use fv_bits::{is_below_zero, ones};
use vl_size::way::{keeps_size, way_of};
use vl_size::{Own, Way};
use vl_tree::{BinaryOperator, UnaryOperator};

/// The bits of two parts together; at the limit where they pass it.
pub fn plus(m: u64, n: u64) -> u64
    ensures { result ≡ spec.capped (m + n) }
{
    m.saturating_add(n)
}

/// The bits of a concatenation, which is at least one bit: None for none.
pub fn some(size: u64) -> Option<u64>
    ensures { result ≡ some_bits (Some size) }
{
    if size == 0 {
        return None;
    }
    Some(size)
}

/// The size of an operation from that of its operand (IEEE 1364-2005, section 5.4.1).
pub fn unary_size(operator: UnaryOperator, size: u64) -> u64
    ensures { result ≡ size_spec.unary_size operator size }
{
    if keeps_size(operator) { size } else { 1 }
}

/// The size of an operation from those of its operands (IEEE 1364-2005, section 5.4.1).
pub fn binary_size(operator: BinaryOperator, m: u64, n: u64) -> u64
    ensures { result ≡ size_spec.size_by (way operator) m n }
{
    match way_of(operator) {
        Way::Larger => m.max(n),
        Way::Left => m,
        Way::One => 1,
    }
}

/// A bound, where it has 32 signed bits.
pub fn bound(own: Own) -> Option<i64>
    ensures { let i = as_int own.width own.signed own.number in
        result ≡ (if size_spec.is_bound i then Some i else None) }
{
    if is_below_zero(own.width, own.signed, own.number) {
        let past = ones(own.width) - own.number;
        return if past < 1 << 31 {
            Some(-1 - past as i64)
        } else {
            None
        };
    }
    if own.number < 1 << 31 {
        Some(own.number as i64)
    } else {
        None
    }
}

/// So many times the size, at least once.
pub fn wide_times(count: Own, size: u64) -> Option<u64>
    ensures { let n = as_int count.width count.signed count.number in
        result ≡ spec.wide_times n size }
{
    if count.number == 0 || is_below_zero(count.width, count.signed, count.number) {
        return None;
    }
    Some(capped_product(count.number, size))
}

fn capped_product(count: u128, size: u64) -> u64
    ensures { result ≡ spec.capped (count * size) }
{
    count
        .saturating_mul(u128::from(size))
        .min(u128::from(u64::MAX)) as u64
}
