//! Sizes and values of selects and copies, from the numbers in them (IEEE 1364-2005, sections 4.2.1 and 5.1.14).
ghost use Rattle.std.specs.Prelude.{
  ◌≡◌,
  ◌<◌,
  ◌≤◌,
  ◌*◌,
  ◌+◌,
  ◌^◌,
  Some,
  None,
  IfSome,
  ℤ,
  pos,
  nat_abs,
  IsTrue,
};
ghost use Rattle.std.specs.Prelude.{if◌then◌else◌};
ghost use Rattle.std.specs.Option.{option_map};
ghost use Rattle.fv_bits.specs.Bits.{as_int};
ghost use Rattle.vl_size.specs.Size as spec;
ghost use Rattle.vl_size.specs.Table as table;

use crate::decl::Decl;
use crate::own::Own;
use fv_bits::{is_below_zero, ones};

/// The sum, where it is at most 128.
pub fn plus(m: u32, n: u32) -> Option<u32>
    requires left { m ≤ 128 }
    requires right { n ≤ 128 }
    ensures value { result ≡ spec.within (m + n) }
    ensures few { IfSome result (λ k. (k ≡ m + n) × (k ≤ 128)) }
{
    if m + n > 128 {
        return None;
    }
    Some(m + n)
}

/// At least one bit.
pub fn some_bits(size: u32) -> Option<u32>
    ensures value { result ≡ spec.some_bits (Some size) }
    ensures same { IfSome result (λ m. (m ≡ size) × (1 ≤ m)) }
{
    if size == 0 {
        return None;
    }
    Some(size)
}

/// So many times the size, where the count is above 0 and the product is at most 128.
pub fn times(count: Own, size: u32) -> Option<u32>
    requires some { 1 ≤ size }
    requires few { size ≤ 128 }
    ensures value { result ≡ spec.times (as_int count.width count.signed count.number) size }
    ensures product { IfSome result (λ m. (m ≡ count.number * size) × (1 ≤ m) × (m ≤ 128)) }
    ensures positive { IfSome result (λ m. as_int count.width count.signed count.number ≡ pos count.number) }
{
    if count.number == 0 || is_below_zero(count.width, count.signed, count.number) {
        return None;
    }
    if count.number > 128 || count.number as u32 * size > 128 {
        return None;
    }
    Some(count.number as u32 * size)
}

/// A bound of a part, where it has 32 signed bits at most.
fn bound(own: Own) -> Option<i64>
    ensures { let i = as_int own.width own.signed own.number in
        result ≡ (if spec.is_bound i then Some i else None) }
{
    if is_below_zero(own.width, own.signed, own.number) {
        let past = ones(own.width) - own.number;
        return if past < 1 << 31 {
            Some(-1 - past as i64)
        } else {
            None
        };
    }
    if own.number < 1 << 31 {
        Some(own.number as i64)
    } else {
        None
    }
}

/// The size of the part `[left:right]`: at most 128, from left to right as the declared range goes.
pub fn part_size(decl: &Decl, left: Own, right: Own) -> Option<u32>
    ensures value { let l = as_int left.width left.signed left.number in
        let r = as_int right.width right.signed right.number in
        result ≡ spec.part_size decl.now l r }
    ensures range { IfSome result (λ m. (1 ≤ m) × (m ≤ 128)) }
{
    let left = bound(left)?;
    let right = bound(right)?;
    if !goes_along(decl, left, right) {
        return None;
    }
    span(left, right)
}

/// Whether left and right lie as the bounds of the declared range do.
fn goes_along(decl: &Decl, left: i64, right: i64) -> bool
    ensures { result ≡ spec.goes_along decl.now left right }
{
    if decl.right <= decl.left {
        right <= left
    } else {
        left <= right
    }
}

/// How many places lie from one bound to the other, where they are 128 at most.
fn span(left: i64, right: i64) -> Option<u32>
    requires left { IsTrue (spec.is_bound left) }
    requires right { IsTrue (spec.is_bound right) }
    ensures value { result ≡ spec.within (table.span left right) }
    ensures range { IfSome result (λ m. (1 ≤ m) × (m ≤ 128)) }
{
    let past = (left - right).unsigned_abs();
    if past > 127 {
        return None;
    }
    Some(past as u32 + 1)
}

/// So many copies of a number, one behind the other.
#[tactic(auto, using(crate::proofs::Copies::appending))]
pub fn copies(count: u32, size: u32, n: u128) -> u128
    requires some { 1 ≤ size }
    requires few { count * size ≤ 128 }
    requires fits { n < 2 ^ size }
    ensures value { result ≡ spec.copies count size n }
    ensures fits { result < 2 ^ (count * size) }
{
    if count == 0 {
        return 0;
    }
    appended(copies(count - 1, size, n), (count - 1) * size, size, n)
}

/// A number of `size` bits, and behind it one of `more` bits.
#[tactic(auto, using(crate::proofs::Copies::appending))]
pub fn appended(front: u128, size: u32, more: u32, n: u128) -> u128
    requires few { size + more ≤ 128 }
    requires front { front < 2 ^ size }
    requires fits { n < 2 ^ more }
    ensures value { result ≡ front * 2 ^ more + n }
    ensures fits { result < 2 ^ (size + more) }
{
    if size == 0 {
        return n;
    }
    (front << more) + n
}

/// So many copies of a number, one behind the other. None exactly where they have no size.
pub fn repeated(count: Own, part: Own) -> Option<Own>
    requires { 1 ≤ part.width }
    ensures width { option_map (λ all. all.width) result
        ≡ spec.times (as_int count.width count.signed count.number) part.width }
    ensures some { IfSome result (λ all. 1 ≤ all.width) }
    ensures number { IfSome result (λ all. all.number
        ≡ spec.copies (nat_abs (as_int count.width count.signed count.number)) part.width part.number) }
{
    let width = times(count, part.width)?;
    Some(Own {
        width,
        signed: false,
        number: copies(count.number as u32, part.width, part.number),
    })
}
