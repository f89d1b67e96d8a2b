//! Numbers of a width of at most 128 bits by their parts (IEEE 1364-2005, sections 5.1.14 and 5.2.1).
ghost use Rattle.std.specs.Prelude.{◌≡◌, ◌+◌, ◌<◌, ◌≤◌, ◌^◌, IsTrue, ◌↔◌};
ghost use Rattle.fv_bits.specs.Bits as spec;

use crate::plain::{complement, low, shifted_right};

/// Whether the number has so many bits or fewer.
pub fn fits(width: u32, number: u128) -> bool
    ensures { IsTrue result ↔ (number < 2 ^ width) }
{
    if width >= 128 {
        return true;
    }
    number >> width == 0
}

/// The bits from `at` on.
#[tactic(auto, using(crate::proofs::Limits::bits))]
pub fn part(at: u32, width: u32, n: u128) -> u128
    requires { width ≤ 128 }
    ensures value { result ≡ spec.part at width n }
    ensures fits { result < 2 ^ width }
{
    low(width, shifted_right(n, u128::from(at)))
}

/// `high` in front of the bits of `behind`.
#[tactic(auto, using(crate::proofs::Limits::wholes))]
pub fn joined(above: u32, width: u32, high: u128, behind: u128) -> u128
    requires few { above + width ≤ 128 }
    requires some { width < 128 }
    requires high { high < 2 ^ above }
    requires behind { behind < 2 ^ width }
    ensures value { result ≡ spec.joined width high behind }
    ensures fits { result < 2 ^ (above + width) }
{
    (high << width) + behind
}

/// The bits of `to` where the mask is 1, and those of `from` where it is 0.
#[tactic(auto, using(crate::proofs::Limits::bitwise))]
pub fn masked(width: u32, mask: u128, from: u128, to: u128) -> u128
    requires few { width ≤ 128 }
    requires mask { mask < 2 ^ width }
    requires from { from < 2 ^ width }
    requires to { to < 2 ^ width }
    ensures value { result ≡ spec.masked width mask from to }
    ensures fits { result < 2 ^ width }
{
    (mask & to) | (complement(width, mask) & from)
}
