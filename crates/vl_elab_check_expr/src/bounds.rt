//! Bounds of parts and counts, as the numbers that they are.
ghost use Rattle.std.specs.Prelude.{◌≡◌, Some, None, ◌&&◌, int_le, pos, if◌then◌else◌};
ghost use Rattle.fv_bits.specs.Bits.{as_int};
ghost use Rattle.vl_size.specs.Size as size_spec;
ghost use Rattle.vl_size.specs.Table.{span};

use fv_bits::{is_below_zero, ones};
use vl_mean::widths::bound;
use vl_size::{Decl, Own};

/// Whether the first number is at most the second.
fn is_at_most(first: Own, second: Own) -> bool
    ensures { let i = as_int first.width first.signed first.number in
        let j = as_int second.width second.signed second.number in
        result ≡ int_le i j }
{
    let first_below = is_below_zero(first.width, first.signed, first.number);
    let second_below = is_below_zero(second.width, second.signed, second.number);
    if first_below {
        if !second_below {
            return true;
        }
        return ones(second.width) - second.number <= ones(first.width) - first.number;
    }
    if second_below {
        return false;
    }
    first.number <= second.number
}

/// Whether it is 1 or more.
pub(crate) fn is_some_copies(count: Own) -> bool
    ensures { let n = as_int count.width count.signed count.number in
        result ≡ int_le (pos 1) n }
{
    count.number != 0 && !is_below_zero(count.width, count.signed, count.number)
}

/// Whether the part from left to right goes as the declared range does.
pub(crate) fn goes_along(decl: &Decl, left: Own, right: Own) -> bool
    ensures { let l = as_int left.width left.signed left.number in
        let r = as_int right.width right.signed right.number in
        result ≡ size_spec.goes_along decl.now l r }
{
    if decl.right <= decl.left {
        is_at_most(right, left)
    } else {
        is_at_most(left, right)
    }
}

/// The width of the part from left down to right, where its bounds have 32 signed bits.
fn span_down(left: Own, right: Own) -> Option<u64>
    ensures { let l = as_int left.width left.signed left.number in
        let r = as_int right.width right.signed right.number in
        result ≡ (if size_spec.is_bound l && (size_spec.is_bound r && int_le r l) then Some (span l r) else None) }
{
    let left = bound(left)?;
    let right = bound(right)?;
    if left < right {
        return None;
    }
    Some((left - right).unsigned_abs() + 1)
}

/// The width of the part from left up to right.
fn span_up(left: Own, right: Own) -> Option<u64>
    ensures { let l = as_int left.width left.signed left.number in
        let r = as_int right.width right.signed right.number in
        result ≡ (if size_spec.is_bound l && (size_spec.is_bound r && int_le l r) then Some (span l r) else None) }
{
    let left = bound(left)?;
    let right = bound(right)?;
    if right < left {
        return None;
    }
    Some((left - right).unsigned_abs() + 1)
}

/// The width of the part from left to right, where its bounds have 32 signed bits and go as the declared range does.
pub(crate) fn span_of(decl: &Decl, left: Own, right: Own) -> Option<u64>
    ensures { let l = as_int left.width left.signed left.number in
        let r = as_int right.width right.signed right.number in
        result ≡ (if size_spec.is_bound l && (size_spec.is_bound r && size_spec.goes_along decl.now l r)
        then Some (span l r) else None) }
{
    if decl.right <= decl.left {
        span_down(left, right)
    } else {
        span_up(left, right)
    }
}
