//! The bits of a vector from a place on, replaced by those of a node.
#![tactic(auto, using(wn_net::proofs::Laws::additions))]

ghost use Rattle.std.specs.Prelude.{◌≡◌, ◌+◌, ◌/◌, ◌^◌, ◌≤◌, ◌<◌, min, ℕ, true, None, IfSome, IfOk, ℤ, pos, ◌+ℤ◌};
ghost use Rattle.fv_bits.specs.Bits.{joined, low, part};
ghost use Rattle.wn_net.specs.Net.{IsNode, width_at, value_at};
ghost use Rattle.wn_net.specs.Changes.{AddsNodes, Shows};
ghost use Rattle.vl_lower_nodes.specs.Points.{is_place};
ghost use Rattle.vl_lower_assign.specs.Overlap.{IsOverlap};
ghost use Rattle.vl_lower_assign.specs.Puts.{put_bits};

use fv_text::Memory;
use wn_net::{Net, NodeId};

/// The bits of a vector from `from` to before `past`, which are those of a part from `skip` on.
#[derive(Debug, Clone, Copy)]
struct Overlap {
    from: u32,
    past: u32,
    skip: u32,
}

fn least(a: u32, b: u32) -> u32
    ensures { result ≡ min a b }
{
    if a < b { a } else { b }
}

/// Of a part so many bits of which are below the vector.
fn below_zero(skip: u32, count: u32, width: u32) -> Overlap
    requires some { skip < count }
    requires bits { 1 ≤ width }
    ensures { (p : ℤ) → (p +ℤ pos skip) ≡ pos 0
        → IsOverlap count width p result.from result.past result.skip }
{
    let past = least(count - skip, width);
    Overlap {
        from: 0,
        past,
        skip,
    }
}

/// Of a part that begins within the vector.
fn from_zero(from: u32, count: u32, width: u32) -> Overlap
    requires some { 1 ≤ count }
    requires few { count ≤ 128 }
    requires within { from < width }
    requires narrow { width ≤ 128 }
    ensures { IsOverlap count width (pos from) result.from result.past result.skip }
{
    let past = least(from + count, width);
    Overlap {
        from,
        past,
        skip: 0,
    }
}

/// The bits of a vector that a part from a place on has. None exactly where it has none.
fn overlap_of(place: i64, count: u32, width: u32) -> Option<Overlap>
    requires place { is_place place ≡ true }
    requires some { 1 ≤ count }
    requires few { count ≤ 128 }
    requires bits { 1 ≤ width }
    requires narrow { width ≤ 128 }
    ensures some { IfSome result (λ o. IsOverlap count width place o.from o.past o.skip) }
    ensures none { result ≡ None → (j i : ℕ) → j < width → i < count → pos j ≡ (place +ℤ pos i) → ⊥ }
{
    let end = place + i64::from(count);
    if place >= i64::from(width) || end <= 0 {
        return None;
    }
    if place < 0 {
        return Some(below_zero(place.unsigned_abs() as u32, count, width));
    }
    Some(from_zero(place as u32, count, width))
}

/// So many bits of a node from a place on: the node itself where these are all that it has.
fn part_of(net: &mut Net, value: NodeId, skip: u32, count: u32) -> Result<NodeId, Memory>
    requires value { IsNode net.old value }
    requires some { 1 ≤ count }
    requires within { skip + count ≤ width_at net.old value }
    ensures adds { AddsNodes net.old net.new }
    ensures shows { IfOk result (Shows net.old net.new count (λ g. part skip count (value_at net.old g value))) }
{
    let width = net.width(value);
    if count == width {
        return Ok(value);
    }
    let bits = net.slice(value, skip, count)?;
    Ok(bits)
}

/// A node in front of so many of the lowest bits of a vector.
fn with_low(net: &mut Net, vector: NodeId, front: NodeId, count: u32) -> Result<NodeId, Memory>
    requires vector { IsNode net.old vector }
    requires front { IsNode net.old front }
    requires within { count ≤ width_at net.old vector }
    requires few { width_at net.old front + count ≤ 128 }
    ensures adds { AddsNodes net.old net.new }
    ensures shows { IfOk result (Shows net.old net.new (width_at net.old front + count)
        (λ g. joined count (value_at net.old g front) (low count (value_at net.old g vector)))) }
{
    if count == 0 {
        return Ok(front);
    }
    let low = net.slice(vector, 0, count)?;
    let whole = net.concat(front, low)?;
    Ok(whole)
}

/// A node behind the bits of a vector that stand above it.
fn with_high(net: &mut Net, vector: NodeId, back: NodeId) -> Result<NodeId, Memory>
    requires vector { IsNode net.old vector }
    requires back { IsNode net.old back }
    requires within { width_at net.old back ≤ width_at net.old vector }
    ensures adds { AddsNodes net.old net.new }
    ensures shows { IfOk result (Shows net.old net.new (width_at net.old vector) (λ g. joined (width_at net.old back)
        (value_at net.old g vector / 2 ^ width_at net.old back) (value_at net.old g back))) }
{
    let width = net.width(vector);
    let count = net.width(back);
    if count == width {
        return Ok(back);
    }
    let high = net.slice(vector, count, width - count)?;
    let whole = net.concat(high, back)?;
    Ok(whole)
}

/// A vector in which the bits from a place on, counted from its lowest bit, are those of another node; bits past the
/// vector are dropped (IEEE 1364-2005, section 4.2.1).
pub fn put(net: &mut Net, vector: NodeId, place: i64, value: NodeId) -> Result<NodeId, Memory>
    requires vector { IsNode net.old vector }
    requires value { IsNode net.old value }
    requires place { is_place place ≡ true }
    ensures adds { AddsNodes net.old net.new }
    ensures shows { IfOk result (Shows net.old net.new (width_at net.old vector)
        (λ g. put_bits (width_at net.old value) (width_at net.old vector) place (value_at net.old g value)
        (value_at net.old g vector))) }
{
    let width = net.width(vector);
    let count = net.width(value);
    let Some(overlap) = overlap_of(place, count, width) else {
        return Ok(vector);
    };
    let middle = part_of(net, value, overlap.skip, overlap.past - overlap.from)?;
    let below = with_low(net, vector, middle, overlap.from)?;
    let whole = with_high(net, vector, below)?;
    Ok(whole)
}
