//! Bits and parts of a vector at an index that may vary.
#![tactic(auto, using(wn_net::proofs::Laws::additions))]

ghost use Rattle.std.specs.Prelude.{◌≡◌, ◌≤◌, ◌<◌, ◌-◌, ◌^◌, true, false, ℤ, pos, ◌-ℤ◌, ◌+◌, bit_or, IfSome, IfOk};
ghost use Rattle.fv_bits.specs.Bits.{as_int, extended, shifted_left, shifted_right};
ghost use Rattle.vl_size.specs.Size as spec;
ghost use Rattle.vl_size.specs.Size.{is_bound};
ghost use Rattle.wn_net.specs.Value.{Given};
ghost use Rattle.wn_net.specs.Net.{IsNode, IsNodeOf, width_at, value_at};
ghost use Rattle.wn_net.specs.Given.{IsGiven};
ghost use Rattle.wn_net.specs.Changes.{AddsNodes, Shows};
ghost use Rattle.vl_lower_nodes.specs.Points.{IsAddress, GivePlace, distance, is_base, is_place};

use crate::place::address;
use crate::width::{fit, number};
use fv_text::Memory;
use vl_size::Decl;
use wn_net::{Net, NodeId};

/// The bit of a vector at an index; 0 past the vector (IEEE 1364-2005, section 4.2.1).
pub fn bit_at(
    net: &mut Net,
    decl: &Decl,
    vector: NodeId,
    index: NodeId,
    signed: bool,
) -> Result<NodeId, Memory>
    requires bits { 1 ≤ decl.now.width }
    requires few { decl.now.width ≤ 128 }
    requires vector { IsNodeOf net.old decl.now.width vector }
    requires index { IsNode net.old index }
    requires right { is_base decl.now.right ≡ true }
    ensures adds { AddsNodes net.old net.new }
    ensures shows { IfOk result (Shows net.old net.new 1 (λ g. spec.bit_at decl.now.width (value_at net.old g vector)
        (spec.offset_of decl.now (as_int (width_at net.old index) signed (value_at net.old g index))))) }
{
    // Asked for what it says of the net: numbers are below 2 to their widths.
    let _width = net.width(vector);
    let place = address(net, index, signed, right_of(decl), descends(decl))?;
    let moved = net.lshr(vector, place)?;
    let bit = net.slice(moved, 0, 1)?;
    Ok(bit)
}

/// Where bits of a vector begin, from its lowest bit on: one address counts upwards, and the other downwards.
#[derive(Debug, Clone, Copy, PartialEq, Eq)]
pub struct VaryingPlace {
    pub up: NodeId,
    pub down: NodeId,
}

/// Where so many bits of a vector begin that stand from an index on (section 5.2.1).
pub fn place_from(
    net: &mut Net,
    decl: &Decl,
    index: NodeId,
    signed: bool,
    count: u32,
) -> Result<VaryingPlace, Memory>
    requires index { IsNode net.old index }
    requires some { 1 ≤ count }
    requires few { count ≤ 128 }
    requires right { is_bound decl.now.right ≡ true }
    ensures adds { AddsNodes net.old net.new }
    ensures up { IfOk result (λ p. IsNode net.new p.up) }
    ensures down { IfOk result (λ p. IsNode net.new p.down) }
    ensures value { IfOk result (λ p. (g : Given) → IsGiven net.old g
        → GivePlace (value_at net.new g p.up) (value_at net.new g p.down)
        (spec.start_of decl.now (as_int (width_at net.old index) signed (value_at net.old g index)) count)) }
{
    let along = descends(decl);
    let base = start_base(decl, count);
    let up = address(net, index, signed, base, along)?;
    let down = address(net, index, signed, base, !along)?;
    Ok(VaryingPlace { up, down })
}

/// So many bits of a vector from a place on; those past the vector are 0 (section 4.2.1).
pub fn part_by(
    net: &mut Net,
    vector: NodeId,
    place: VaryingPlace,
    count: u32,
) -> Result<NodeId, Memory>
    requires vector { IsNode net.old vector }
    requires up { IsNode net.old place.up }
    requires down { IsNode net.old place.down }
    requires some { 1 ≤ count }
    requires few { count ≤ 128 }
    ensures adds { AddsNodes net.old net.new }
    ensures there { IfOk result (IsNodeOf net.new count) }
    ensures value { IfOk result (λ id. (g : Given) (p : ℤ) → IsGiven net.old g
        → GivePlace (value_at net.old g place.up) (value_at net.old g place.down) p
        → value_at net.new g id ≡ spec.bits_from count (width_at net.old vector) (value_at net.old g vector) p) }
{
    // Asked for what it says of the net: numbers are below 2 to their widths.
    let _width = net.width(vector);
    let part = moved(net, vector, place.up, place.down, count)?;
    Ok(part)
}

/// The part of a vector that begins at an index; its bits past the vector are 0 (section 4.2.1).
pub fn part_at(
    net: &mut Net,
    decl: &Decl,
    vector: NodeId,
    index: NodeId,
    signed: bool,
    count: u32,
) -> Result<NodeId, Memory>
    requires bits { 1 ≤ decl.now.width }
    requires few { decl.now.width ≤ 128 }
    requires vector { IsNodeOf net.old decl.now.width vector }
    requires index { IsNode net.old index }
    requires some { 1 ≤ count }
    requires count { count ≤ 128 }
    requires right { is_bound decl.now.right ≡ true }
    ensures adds { AddsNodes net.old net.new }
    ensures shows { IfOk result (Shows net.old net.new count
        (λ g. spec.bits_from count decl.now.width (value_at net.old g vector)
        (spec.start_of decl.now (as_int (width_at net.old index) signed (value_at net.old g index)) count))) }
{
    let place = place_from(net, decl, index, signed, count)?;
    let part = part_by(net, vector, place, count)?;
    Ok(part)
}

fn descends(decl: &Decl) -> bool
    ensures { result ≡ spec.descends decl.now }
{
    decl.right <= decl.left
}

fn right_of(decl: &Decl) -> i64
    ensures { result ≡ decl.now.right }
{
    decl.right
}

/// The first of so many indices of which the bound is the last.
fn first_of(right: i64, count: u32) -> i64
    requires right { is_bound right ≡ true }
    requires some { 1 ≤ count }
    requires few { count ≤ 128 }
    ensures value { result ≡ right -ℤ pos (count - 1) }
    ensures base { is_base result ≡ true }
{
    right - (i64::from(count) - 1)
}

/// The bound that a part's start is counted from: of a range that ascends the highest bits come first.
fn start_base(decl: &Decl, count: u32) -> i64
    requires right { is_bound decl.now.right ≡ true }
    requires some { 1 ≤ count }
    requires few { count ≤ 128 }
    ensures base { is_base result ≡ true }
    ensures value { (i : ℤ) → distance (spec.descends decl.now) result i ≡ spec.start_of decl.now i count }
{
    if descends(decl) {
        right_of(decl)
    } else {
        first_of(right_of(decl), count)
    }
}

/// So many bits of a vector, moved to the right by one address, and to the left by the other.
fn moved(
    net: &mut Net,
    vector: NodeId,
    up: NodeId,
    down: NodeId,
    count: u32,
) -> Result<NodeId, Memory>
    requires vector { IsNode net.old vector }
    requires up { IsNode net.old up }
    requires down { IsNode net.old down }
    requires some { 1 ≤ count }
    requires few { count ≤ 128 }
    ensures adds { AddsNodes net.old net.new }
    ensures shows { IfOk result (Shows net.old net.new count
        (λ g. bit_or (extended (width_at net.old vector) count false
        (shifted_right (value_at net.old g vector) (value_at net.old g up)))
        (shifted_left count (extended (width_at net.old vector) count false (value_at net.old g vector))
        (value_at net.old g down)))) }
{
    let right = net.lshr(vector, up)?;
    let low = fit(net, right, count, false)?;
    let cut = fit(net, vector, count, false)?;
    let high = net.shl(cut, down)?;
    let both = net.or(low, high)?;
    Ok(both)
}

/// A place as an address: a number past all places where it is below 0.
fn address_of(place: i64) -> u128
    requires { is_place place ≡ true }
    ensures address { IsAddress result place }
    ensures fits { result < 2 ^ 34 }
{
    if place < 0 {
        (1 << 34) - 1
    } else {
        u128::from(place.unsigned_abs())
    }
}

/// The same of what is left to 0.
fn address_below(place: i64) -> u128
    requires { is_place place ≡ true }
    ensures address { IsAddress result (pos 0 -ℤ place) }
    ensures fits { result < 2 ^ 34 }
{
    if place > 0 {
        (1 << 34) - 1
    } else {
        u128::from(place.unsigned_abs())
    }
}

/// The place as a number, where so many bits from there on are of the vector.
fn place_within(place: i64, count: u32, width: u32) -> Option<u32>
    requires place { is_place place ≡ true }
    requires count { count ≤ 128 }
    requires width { width ≤ 128 }
    ensures { IfSome result (λ k. (place ≡ pos k) × (k + count ≤ width)) }
{
    if place < 0 || place + i64::from(count) > i64::from(width) {
        return None;
    }
    Some(place.unsigned_abs() as u32)
}

/// So many bits of a vector from a place on, counted from its lowest bit; those past the vector are 0 (section 4.2.1).
pub fn part_from(net: &mut Net, vector: NodeId, place: i64, count: u32) -> Result<NodeId, Memory>
    requires vector { IsNode net.old vector }
    requires some { 1 ≤ count }
    requires few { count ≤ 128 }
    requires place { is_place place ≡ true }
    ensures adds { AddsNodes net.old net.new }
    ensures shows { IfOk result (Shows net.old net.new count
        (λ g. spec.bits_from count (width_at net.old vector) (value_at net.old g vector) place)) }
{
    let width = net.width(vector);
    if let Some(low) = place_within(place, count, width) {
        let part = net.slice(vector, low, count)?;
        return Ok(part);
    }
    let up = number(net, 34, address_of(place))?;
    let down = number(net, 34, address_below(place))?;
    let part = part_by(net, vector, VaryingPlace { up, down }, count)?;
    Ok(part)
}
