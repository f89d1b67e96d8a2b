//! Bits and words at an index, which is read by its own sign (IEEE 1364-2005, sections 4.2.1, 4.2.2 and 4.9.3).
ghost use Rattle.std.specs.Prelude.{
  ◌≡◌,
  ◌+◌,
  ◌<◌,
  ◌≤◌,
  ◌-◌,
  ◌^◌,
  false,
  Some,
  None,
  IfSome,
  IsTrue,
  ℤ,
  pos,
  negsuc,
};
ghost use Rattle.std.specs.Prelude.{◌+ℤ◌, ◌≤ℤ◌, if◌then◌else◌};
ghost use Rattle.fv_bits.specs.Bits.{as_int};
ghost use Rattle.vl_size.specs.Size as spec;
ghost use Rattle.vl_size.specs.Place.{is_near, is_far};
ghost use Rattle.vl_size.specs.Table as table;

use crate::decl::Decl;
use crate::own::Own;
use fv_bits::{is_below_zero, ones};

/// The bit at a place of a vector with the number `x`, counted from its lowest bit; 0 past the vector.
#[tactic(auto, using(crate::proofs::PlaceLemmas::bits))]
pub fn bit_at(width: u32, x: u128, place: i128) -> u128
    requires { width ≤ 128 }
    ensures value { result ≡ spec.bit_at width x place }
    ensures fits { result < 2 }
{
    if place < 0 || place >= i128::from(width) {
        return 0;
    }
    (x >> place as u32) % 2
}

/// So many bits of a vector with the number `x`, from a place on upwards; those past the vector are 0.
#[tactic(auto, using(crate::proofs::PlaceLemmas::steps))]
pub fn bits_from(count: u32, width: u32, x: u128, place: i128) -> u128
    requires few { width ≤ 128 }
    requires count { count ≤ 128 }
    requires near { (place +ℤ pos count) ≤ℤ pos (2 ^ 126) }
    ensures value { result ≡ spec.bits_from count width x place }
    ensures fits { result < 2 ^ count }
{
    if count == 0 {
        return 0;
    }
    bit_at(width, x, place) + 2 * bits_from(count - 1, width, x, place + 1)
}

/// The place of an index in a vector, counted from its lowest bit.
fn place_at(decl: &Decl, index: i128) -> i128
    requires least { negsuc (2 ^ 101) ≤ℤ index }
    requires most { index ≤ℤ pos (2 ^ 101) }
    ensures value { result ≡ spec.offset_of decl.now index }
    ensures most { result ≤ℤ pos (2 ^ 102) }
{
    if decl.right <= decl.left {
        index - i128::from(decl.right)
    } else {
        i128::from(decl.right) - index
    }
}

/// The place of an index in a vector. None where it is past every vector.
fn place_of(decl: &Decl, index: Own) -> Option<i128>
    ensures value { IfSome result (λ p. p ≡ spec.offset_of decl.now (as_int index.width index.signed index.number)) }
    ensures most { IfSome result (λ p. p ≤ℤ pos (2 ^ 102)) }
    ensures far { result ≡ None → IsTrue (is_far
        (spec.offset_of decl.now (as_int index.width index.signed index.number))) }
{
    // Read before the index, whose place is far by this bound's range.
    let _right = decl.right;
    let index = near(index)?;
    Some(place_at(decl, index))
}

/// The bit that an index selects from a vector with the number `x`.
#[tactic(auto, using(crate::proofs::PlaceLemmas::far))]
pub fn selected_bit(decl: &Decl, x: u128, index: Own) -> u128
    requires { decl.now.width ≤ 128 }
    ensures value { result ≡ spec.bit_at decl.now.width x
        (spec.offset_of decl.now (as_int index.width index.signed index.number)) }
    ensures fits { result < 2 }
{
    match place_of(decl, index) {
        None => 0,
        Some(place) => bit_at(decl.width, x, place),
    }
}

/// So many bits, the lowest of them at the index: of a part `[left:right]` the right bound.
#[tactic(auto, using(crate::proofs::PlaceLemmas::far))]
pub fn selected_part(decl: &Decl, x: u128, right: Own, count: u32) -> u128
    requires few { decl.now.width ≤ 128 }
    requires count { count ≤ 128 }
    ensures value { result ≡ spec.bits_from count decl.now.width x
        (spec.offset_of decl.now (as_int right.width right.signed right.number)) }
    ensures fits { result < 2 ^ count }
{
    match place_of(decl, right) {
        None => 0,
        Some(place) => bits_from(count, decl.width, x, place),
    }
}

/// The last index of so many from the first on.
fn last_of(first: i128, count: u32) -> i128
    requires least { negsuc (2 ^ 100) ≤ℤ first }
    requires most { first ≤ℤ pos (2 ^ 100) }
    requires count { count ≤ 128 }
    ensures value { result ≡ (first +ℤ pos (count - 1)) }
    ensures least { negsuc (2 ^ 101) ≤ℤ result }
    ensures most { result ≤ℤ pos (2 ^ 101) }
{
    first + i128::from(count.saturating_sub(1))
}

/// Where the part `[start +: count]` begins, counted from the lowest bit. None where it is past every vector.
fn start_of(decl: &Decl, start: Own, count: u32) -> Option<i128>
    requires { count ≤ 128 }
    ensures value { IfSome result (λ p. p ≡ spec.start_of decl.now
        (as_int start.width start.signed start.number) count) }
    ensures most { IfSome result (λ p. p ≤ℤ pos (2 ^ 102)) }
    ensures far { result ≡ None → IsTrue (is_far
        (spec.start_of decl.now (as_int start.width start.signed start.number) count)) }
{
    let descends = decl.right <= decl.left;
    let start = near(start)?;
    if descends {
        return Some(place_at(decl, start));
    }
    Some(place_at(decl, last_of(start, count)))
}

/// The bits of the part `[start +: count]` of a vector with the number `x`.
#[tactic(auto, using(crate::proofs::PlaceLemmas::far))]
pub fn selected_from(decl: &Decl, x: u128, start: Own, count: u32) -> u128
    requires few { decl.now.width ≤ 128 }
    requires count { count ≤ 128 }
    ensures value { result ≡ spec.bits_from count decl.now.width x
        (spec.start_of decl.now (as_int start.width start.signed start.number) count) }
    ensures fits { result < 2 ^ count }
{
    match start_of(decl, start, count) {
        None => 0,
        Some(place) => bits_from(count, decl.width, x, place),
    }
}

/// The index of a word of a memory with words between the bounds. None exactly where it is past them.
pub fn word_of(words: (i64, i64), index: Own) -> Option<i128>
    ensures { let i = as_int index.width index.signed index.number in
        result ≡ (if table.is_between words.0 words.1 i then Some i else None) }
{
    let index = near(index)?;
    if is_between(words.0, words.1, index) {
        Some(index)
    } else {
        None
    }
}

/// The bounds may stand in either order.
fn is_between(left: i64, right: i64, index: i128) -> bool
    ensures { result ≡ table.is_between left right index }
{
    let left = i128::from(left);
    let right = i128::from(right);
    (left <= index && index <= right) || (right <= index && index <= left)
}

/// The index, where it isn't so far from 0 that it is past every vector and memory.
fn near(index: Own) -> Option<i128>
    ensures value { IfSome result (λ i. i ≡ as_int index.width index.signed index.number) }
    ensures least { IfSome result (λ i. negsuc (2 ^ 100 - 1) ≤ℤ i) }
    ensures most { IfSome result (λ i. i ≤ℤ pos (2 ^ 100 - 1)) }
    ensures far { result ≡ None → is_near (as_int index.width index.signed index.number) ≡ false }
{
    if is_below_zero(index.width, index.signed, index.number) {
        let past = ones(index.width) - index.number;
        return if past < 1 << 100 {
            Some(-1 - past as i128)
        } else {
            None
        };
    }
    if index.number < 1 << 100 {
        Some(index.number as i128)
    } else {
        None
    }
}
