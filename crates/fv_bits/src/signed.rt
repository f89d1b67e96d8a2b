//! Numbers of a width of at most 128 bits, read by their sign (IEEE 1364-2005, sections 4.1, 5.1 and 5.5).
ghost use Rattle.std.specs.Prelude.{◌≡◌, ◌<◌, ◌≤◌, ◌^◌, pos, neg_ℤ, nat_abs, if◌then◌else◌};
ghost use Rattle.fv_bits.specs.Bits as spec;
ghost use Rattle.fv_bits.specs.Bits.{is_one_below_zero};

use crate::plain::{complement, is_negative, low, negative, ones, shifted_right};

/// A number of `from` bits in `width` bits, extended by its sign bit where the sign says so.
#[tactic(auto, using(crate::proofs::Limits::bits))]
pub fn extended(from: u32, width: u32, signed: bool, n: u128) -> u128
    requires from { from ≤ 128 }
    requires few { width ≤ 128 }
    ensures value { result ≡ spec.extended from width signed n }
    ensures fits { result < 2 ^ width }
{
    if signed && is_negative(from, n) {
        return low(
            width,
            n.wrapping_add(ones(width).saturating_sub(ones(from))),
        );
    }
    low(width, n)
}

/// Filled with the sign bit where the sign says so.
#[tactic(auto, using(crate::proofs::Limits::bits))]
pub fn right_by_sign(width: u32, signed: bool, n: u128, by: u128) -> u128
    requires few { width ≤ 128 }
    requires fits { n < 2 ^ width }
    ensures value { result ≡ spec.right_by_sign width signed n by }
    ensures fits { result < 2 ^ width }
{
    if signed && is_negative(width, n) {
        return complement(width, shifted_right(complement(width, n), by));
    }
    shifted_right(n, by)
}

/// Filled with the sign bit.
pub fn arithmetic_right(width: u32, n: u128, by: u128) -> u128
    requires few { width ≤ 128 }
    requires fits { n < 2 ^ width }
    ensures value { result ≡ spec.arithmetic_right width n by }
    ensures fits { result < 2 ^ width }
{
    right_by_sign(width, true, n, by)
}

/// A number of `from` bits in `width` bits, extended by its sign bit.
#[tactic(auto, using(crate::proofs::Limits::wider))]
pub fn sign_extended(from: u32, width: u32, n: u128) -> u128
    requires wider { from ≤ width }
    requires few { width ≤ 128 }
    requires fits { n < 2 ^ from }
    ensures value { result ≡ spec.sign_extended from width n }
    ensures fits { result < 2 ^ width }
{
    if is_negative(from, n) {
        return n + (ones(width) - ones(from));
    }
    n
}

/// Whether the first is less, both read as signed.
pub fn is_less_signed(width: u32, m: u128, n: u128) -> bool
    requires few { width ≤ 128 }
    requires left { m < 2 ^ width }
    requires right { n < 2 ^ width }
    ensures { result ≡ spec.is_less_signed width m n }
{
    is_less(width, true, m, n)
}

#[tactic(auto, using(crate::proofs::Limits::bits))]
pub fn is_less(width: u32, signed: bool, m: u128, n: u128) -> bool
    requires few { width ≤ 128 }
    requires left { m < 2 ^ width }
    requires right { n < 2 ^ width }
    ensures { result ≡ spec.is_less width signed m n }
{
    if signed && is_negative(width, m) != is_negative(width, n) {
        return is_negative(width, m);
    }
    m < n
}

/// Whether the number is below 0.
pub fn is_below_zero(width: u32, signed: bool, n: u128) -> bool
    requires { width ≤ 128 }
    ensures { result ≡ spec.is_below_zero (spec.as_int width signed n) }
{
    signed && is_negative(width, n)
}

/// The number without its sign.
#[tactic(auto, using(crate::proofs::Limits::bits))]
pub fn magnitude(width: u32, signed: bool, n: u128) -> u128
    requires few { width ≤ 128 }
    requires fits { n < 2 ^ width }
    ensures value { result ≡ nat_abs (spec.as_int width signed n) }
    ensures fits { result < 2 ^ width }
    ensures positive { 0 < n → 0 < result }
{
    if is_below_zero(width, signed, n) {
        return ones(width) - n + 1;
    }
    n
}

/// The number with its sign, in two's complement.
#[tactic(auto, using(crate::proofs::Limits::negatives))]
fn of_magnitude(width: u32, below_zero: bool, n: u128) -> u128
    requires few { width ≤ 128 }
    requires fits { n < 2 ^ width }
    ensures value { result ≡ spec.of_int width (if below_zero then neg_ℤ (pos n) else pos n) }
    ensures fits { result < 2 ^ width }
{
    if below_zero {
        return negative(width, n);
    }
    n
}

/// Rounded to zero; a divisor 0 gives 0.
#[tactic(auto, using(crate::proofs::Limits::quotients))]
pub fn quotient(width: u32, signed: bool, m: u128, n: u128) -> u128
    requires few { width ≤ 128 }
    requires left { m < 2 ^ width }
    requires right { n < 2 ^ width }
    ensures value { result ≡ spec.quotient width signed m n }
    ensures fits { result < 2 ^ width }
{
    if n == 0 {
        return 0;
    }
    let whole = magnitude(width, signed, m) / magnitude(width, signed, n);
    of_magnitude(width, is_quotient_below_zero(width, signed, m, n), whole)
}

/// Exactly one of the two is below 0.
fn is_quotient_below_zero(width: u32, signed: bool, m: u128, n: u128) -> bool
    requires { width ≤ 128 }
    ensures { result ≡ is_one_below_zero (spec.as_int width signed m) (spec.as_int width signed n) }
{
    if is_below_zero(width, signed, m) {
        return !is_below_zero(width, signed, n);
    }
    is_below_zero(width, signed, n)
}

/// With the sign of what is divided; a divisor 0 gives 0.
#[tactic(auto, using(crate::proofs::Limits::quotients))]
pub fn remainder(width: u32, signed: bool, m: u128, n: u128) -> u128
    requires few { width ≤ 128 }
    requires left { m < 2 ^ width }
    requires right { n < 2 ^ width }
    ensures value { result ≡ spec.remainder width signed m n }
    ensures fits { result < 2 ^ width }
{
    if n == 0 {
        return 0;
    }
    let rest = magnitude(width, signed, m) % magnitude(width, signed, n);
    of_magnitude(width, is_below_zero(width, signed, m), rest)
}
