//! Numbers of a width of at most 128 bits, read as unsigned or in two's complement (IEEE 1364-2005, section 5.1).
ghost use Rattle.std.specs.Prelude.{◌≡◌, ◌<◌, ◌≤◌, ◌^◌};
ghost use Rattle.fv_bits.specs.Bits as spec;

/// All bits set.
#[tactic(auto, using(crate::proofs::Limits::bits))]
pub fn ones(width: u32) -> u128
    requires { width ≤ 128 }
    ensures value { result ≡ spec.ones width }
    ensures fits { result < 2 ^ width }
{
    if width == 128 {
        return u128::MAX;
    }
    (1u128 << width) - 1
}

/// The lowest bits.
#[tactic(auto, using(crate::proofs::Limits::bits))]
pub fn low(width: u32, n: u128) -> u128
    requires { width ≤ 128 }
    ensures value { result ≡ spec.low width n }
    ensures fits { result < 2 ^ width }
{
    n & ones(width)
}

/// Whether the highest bit is set.
#[tactic(auto, using(crate::proofs::Limits::bits))]
pub fn is_negative(width: u32, n: u128) -> bool
    requires { width ≤ 128 }
    ensures { result ≡ spec.is_negative width n }
{
    n >= 1u128 << width.saturating_sub(1)
}

#[tactic(auto, using(crate::proofs::Limits::bits))]
pub fn sum(width: u32, m: u128, n: u128) -> u128
    requires { width ≤ 128 }
    ensures value { result ≡ spec.sum width m n }
    ensures fits { result < 2 ^ width }
{
    low(width, m.wrapping_add(n))
}

#[tactic(auto, using(crate::proofs::Limits::bits))]
pub fn product(width: u32, m: u128, n: u128) -> u128
    requires { width ≤ 128 }
    ensures value { result ≡ spec.product width m n }
    ensures fits { result < 2 ^ width }
{
    low(width, m.wrapping_mul(n))
}

/// Each bit turned.
#[tactic(auto, using(crate::proofs::Limits::bits))]
pub fn complement(width: u32, n: u128) -> u128
    requires few { width ≤ 128 }
    requires fits { n < 2 ^ width }
    ensures value { result ≡ spec.complement width n }
    ensures fits { result < 2 ^ width }
{
    ones(width) - n
}

/// What is left to a multiple of `2 ^ width`.
#[tactic(auto, using(crate::proofs::Limits::negatives))]
pub fn negative(width: u32, n: u128) -> u128
    requires few { width ≤ 128 }
    requires fits { n < 2 ^ width }
    ensures value { result ≡ spec.negative width n }
    ensures fits { result < 2 ^ width }
{
    if n == 0 {
        return 0;
    }
    ones(width) - n + 1
}

#[tactic(auto, using(crate::proofs::Limits::negatives))]
pub fn difference(width: u32, m: u128, n: u128) -> u128
    requires few { width ≤ 128 }
    requires fits { n < 2 ^ width }
    ensures value { result ≡ spec.difference width m n }
    ensures fits { result < 2 ^ width }
{
    sum(width, m, negative(width, n))
}

#[tactic(auto, using(crate::proofs::Limits::bits))]
pub fn shifted_left(width: u32, n: u128, by: u128) -> u128
    requires { width ≤ 128 }
    ensures value { result ≡ spec.shifted_left width n by }
    ensures fits { result < 2 ^ width }
{
    if by >= 128 {
        return 0;
    }
    low(width, n << by)
}

#[tactic(auto, using(crate::proofs::Limits::bits))]
pub fn shifted_right(n: u128, by: u128) -> u128
    ensures value { result ≡ spec.shifted_right n by }
    ensures no_larger { result ≤ n }
{
    if by >= 128 {
        return 0;
    }
    n >> by
}

/// A bit of the number 1 or 0.
pub fn bit(set: bool) -> u128
    ensures { result ≡ spec.bit set }
{
    if set { 1 } else { 0 }
}

/// Whether an odd number of the lowest bits is set.
#[tactic(auto, using(crate::proofs::Limits::parities))]
pub fn parity(width: u32, n: u128) -> bool
    ensures { result ≡ spec.parity width n }
{
    if width == 0 {
        return false;
    }
    let rest = parity(width - 1, n / 2);
    if n % 2 == 1 { !rest } else { rest }
}
