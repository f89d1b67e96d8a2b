//! Bits of a vector, and indices of its bits (IEEE 1364-2005, section 5.2.1).
ghost use Rattle.std.specs.Prelude.{
  ◌≡◌,
  ◌<◌,
  ◌≤◌,
  ◌≤ℤ◌,
  ◌<ℤ◌,
  ◌^◌,
  min,
  Some,
  None,
  IfSome,
  ℤ,
  pos,
  neg_ℤ,
  nat_abs,
};
ghost use Rattle.std.specs.Prelude.{◌+ℤ◌, ◌+◌, if◌then◌else◌};
ghost use Rattle.fv_bits.specs.Bits.{as_int};
ghost use Rattle.vl_size.specs.Size as spec;
ghost use Rattle.vl_size.specs.Table as table;
ghost use Rattle.vl_size.specs.Place.{is_near};

use fv_bits::{is_below_zero, low, magnitude, shifted_left, shifted_right};
use vl_size::{Decl, Own};

/// An index read by its sign, and so many more, where that isn't far from all ranges.
fn near(own: Own, more: u128) -> Option<i128>
    ensures value { let i = as_int own.width own.signed own.number +ℤ pos more in
        result ≡ (if is_near i then Some i else None) }
    ensures low { IfSome result (λ i. neg_ℤ (pos (2 ^ 100)) ≤ℤ i) }
    ensures high { IfSome result (λ i. i <ℤ pos (2 ^ 100)) }
{
    let number = magnitude(own.width, own.signed, own.number);
    if !is_below_zero(own.width, own.signed, own.number) {
        return up(number, more);
    }
    if number <= more {
        return up(more - number, 0);
    }
    if number - more <= 1 << 100 {
        Some(-((number - more) as i128))
    } else {
        None
    }
}

/// A sum, where it isn't far from all ranges.
fn up(m: u128, n: u128) -> Option<i128>
    ensures value { let i = pos (m + n) in result ≡ (if is_near i then Some i else None) }
    ensures low { IfSome result (λ i. neg_ℤ (pos (2 ^ 100)) ≤ℤ i) }
    ensures high { IfSome result (λ i. i <ℤ pos (2 ^ 100)) }
{
    if m >= 1 << 100 || n >= 1 << 100 || m + n >= 1 << 100 {
        return None;
    }
    Some((m + n) as i128)
}

/// So many bits of a number from a place on upwards; past its width they are 0.
#[tactic(auto, using(crate::proofs::SelectLemmas::bits_from_place))]
fn bits_from(count: u32, width: u32, number: u128, place: i128) -> u128
    requires count { count ≤ 128 }
    requires width { width ≤ 128 }
    ensures value { result ≡ spec.bits_from count width number place }
    ensures fits { result < 2 ^ count }
{
    let number = low(width, number);
    if place >= 0 {
        low(count, shifted_right(number, place as u128))
    } else {
        shifted_left(count, number, place.unsigned_abs())
    }
}

/// So many bits of a vector's number from an index on, or from the index that lies so many behind it.
fn bits_after(decl: &Decl, count: u32, number: u128, index: Own, more: u128) -> u128
    requires count { count ≤ 128 }
    requires width { decl.now.width ≤ 128 }
    ensures value { let i = as_int index.width index.signed index.number +ℤ pos more in
        result ≡ spec.bits_from count decl.now.width number (spec.offset_of decl.now i) }
    ensures fits { result < 2 ^ count }
{
    let right = right_of(decl);
    match near(index, more) {
        None => 0,
        Some(index) => bits_from(count, decl.width, number, place_of(decl, index, right)),
    }
}

/// The right bound, which has 64 bits.
fn right_of(decl: &Decl) -> i64
    ensures value { result ≡ decl.now.right }
    ensures low { neg_ℤ (pos (2 ^ 63)) ≤ℤ result }
    ensures high { result <ℤ pos (2 ^ 63) }
{
    decl.right
}

/// The place of an index in a vector, counted from its lowest bit.
fn place_of(decl: &Decl, index: i128, right: i64) -> i128
    requires low { neg_ℤ (pos (2 ^ 100)) ≤ℤ index }
    requires high { index <ℤ pos (2 ^ 100) }
    requires right { right ≡ decl.now.right }
    ensures { result ≡ spec.offset_of decl.now index }
{
    if right <= decl.left {
        index - i128::from(right)
    } else {
        i128::from(right) - index
    }
}

/// So many bits of a vector's number from an index on.
#[tactic(auto, using(crate::proofs::SelectLemmas::no_more))]
fn bits_at(decl: &Decl, count: u32, number: u128, index: Own) -> u128
    requires count { count ≤ 128 }
    requires width { decl.now.width ≤ 128 }
    ensures value { let i = as_int index.width index.signed index.number in
        result ≡ spec.bits_from count decl.now.width number (spec.offset_of decl.now i) }
    ensures fits { result < 2 ^ count }
{
    bits_after(decl, count, number, index, 0)
}

/// How many places lie from one bound to the other, 128 at most.
#[tactic(auto, using(crate::proofs::SelectLemmas::apart))]
fn span(left: Own, right: Own) -> u32
    ensures { let l = as_int left.width left.signed left.number in
        let r = as_int right.width right.signed right.number in
        result ≡ min (table.span l r) 128 }
{
    let m = magnitude(left.width, left.signed, left.number);
    let n = magnitude(right.width, right.signed, right.number);
    let below = is_below_zero(left.width, left.signed, left.number);
    let gap = if below == is_below_zero(right.width, right.signed, right.number) {
        m.max(n) - m.min(n)
    } else {
        m.saturating_add(n)
    };
    gap.min(127) as u32 + 1
}

/// The part from one bound to the other, of at most 128 bits.
pub(crate) fn part(decl: &Decl, number: u128, left: Own, right: Own) -> Own
    requires { decl.now.width ≤ 128 }
    ensures width { let l = as_int left.width left.signed left.number in
        let r = as_int right.width right.signed right.number in
        result.width ≡ min (table.span l r) 128 }
    ensures number { let r = as_int right.width right.signed right.number in
        result.number ≡ spec.bits_from result.width decl.now.width number (spec.offset_of decl.now r) }
{
    let width = span(left, right);
    Own {
        width,
        signed: false,
        number: bits_at(decl, width, number, right),
    }
}

/// The part that begins at an index and has so many bits, 128 at most.
pub(crate) fn indexed(decl: &Decl, number: u128, start: Own, width: Own) -> Own
    requires { decl.now.width ≤ 128 }
    ensures width { let n = as_int width.width width.signed width.number in
        result.width ≡ min (nat_abs n) 128 }
    ensures number { let s = as_int start.width start.signed start.number in
        let n = as_int width.width width.signed width.number in
        result.number ≡ spec.bits_from result.width decl.now.width number (spec.start_of decl.now s (nat_abs n)) }
{
    let count = magnitude(width.width, width.signed, width.number);
    let width = count.min(128) as u32;
    let number = if decl.right <= decl.left {
        bits_at(decl, width, number, start)
    } else {
        bits_after(decl, width, number, start, count.saturating_sub(1))
    };
    Own {
        width,
        signed: false,
        number,
    }
}
