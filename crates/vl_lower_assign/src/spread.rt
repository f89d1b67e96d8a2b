//! Bits put into a vector from a place on that may vary.
#![tactic(auto, using(wn_net::proofs::Laws::additions))]

ghost use Rattle.std.specs.Prelude.{◌≡◌, ◌≤◌, ℤ, IfOk, bit_and, bit_or};
ghost use Rattle.fv_bits.specs.Bits.{ones, complement};
ghost use Rattle.wn_net.specs.Value.{Given};
ghost use Rattle.wn_net.specs.Net.{IsNode, IsNodeOf, width_at, value_at};
ghost use Rattle.wn_net.specs.Given.{IsGiven};
ghost use Rattle.wn_net.specs.Changes.{AddsNodes, Shows};
ghost use Rattle.vl_lower_assign.specs.Places.{IsAt, IsPlaceIn};
ghost use Rattle.vl_lower_assign.specs.Puts.{put_bits};

use crate::bits::put;
use fv_bits::ones;
use fv_text::Memory;
use vl_lower_nodes::{VaryingPlace, number, part_by};
use wn_net::{Net, NodeId};

/// Where bits are put into a vector, counted from its lowest bit.
#[derive(Debug, Clone, Copy, PartialEq, Eq)]
pub enum BitPlace {
    Fixed(i64),
    Varying(VaryingPlace),
}

/// Bits as they stand in a vector, and the mask of where they stand.
#[derive(Debug, Clone, Copy, PartialEq, Eq)]
pub struct Spread {
    pub mask: NodeId,
    pub bits: NodeId,
}

/// The bits of a node in a vector that is 0 elsewhere.
fn alone(net: &mut Net, place: BitPlace, value: NodeId, width: u32) -> Result<NodeId, Memory>
    requires place { IsPlaceIn net.old place }
    requires value { IsNode net.old value }
    requires some { 1 ≤ width }
    requires few { width ≤ 128 }
    ensures adds { AddsNodes net.old net.new }
    ensures there { IfOk result (IsNodeOf net.new width) }
    ensures value { IfOk result (λ id. (g : Given) (p : ℤ) → IsGiven net.old g → IsAt net.old g place p
        → value_at net.new g id ≡ put_bits (width_at net.old value) width p (value_at net.old g value) 0) }
{
    match place {
        BitPlace::Fixed(at) => {
            let zero = number(net, width, 0)?;
            let bits = put(net, zero, at, value)?;
            Ok(bits)
        }
        BitPlace::Varying(at) => {
            // Asked for what it says of the net: numbers are below 2 to their widths.
            let _count = net.width(value);
            let turned = VaryingPlace {
                up: at.down,
                down: at.up,
            };
            let bits = part_by(net, value, turned, width)?;
            Ok(bits)
        }
    }
}

/// The node of so many bits that are all set.
fn all_set(net: &mut Net, like: NodeId) -> Result<NodeId, Memory>
    requires { IsNode net.old like }
    ensures adds { AddsNodes net.old net.new }
    ensures shows { IfOk result (Shows net.old net.new (width_at net.old like) (λ g. ones (width_at net.old like))) }
{
    let count = net.width(like);
    let full = number(net, count, ones(count))?;
    Ok(full)
}

/// The bits of a node as they stand from a place on in a vector of a width, and the mask of where they stand.
pub(crate) fn spread_bits(
    net: &mut Net,
    place: BitPlace,
    value: NodeId,
    width: u32,
) -> Result<Spread, Memory>
    requires place { IsPlaceIn net.old place }
    requires value { IsNode net.old value }
    requires some { 1 ≤ width }
    requires few { width ≤ 128 }
    ensures adds { AddsNodes net.old net.new }
    ensures mask_there { IfOk result (λ s. IsNodeOf net.new width s.mask) }
    ensures bits_there { IfOk result (λ s. IsNodeOf net.new width s.bits) }
    ensures mask { IfOk result (λ s. (g : Given) (p : ℤ) → IsGiven net.old g → IsAt net.old g place p
        → value_at net.new g s.mask
        ≡ put_bits (width_at net.old value) width p (ones (width_at net.old value)) 0) }
    ensures bits { IfOk result (λ s. (g : Given) (p : ℤ) → IsGiven net.old g → IsAt net.old g place p
        → value_at net.new g s.bits ≡ put_bits (width_at net.old value) width p (value_at net.old g value) 0) }
{
    let full = all_set(net, value)?;
    let mask = alone(net, place, full, width)?;
    let bits = alone(net, place, value, width)?;
    Ok(Spread { mask, bits })
}

/// A vector with other bits where the mask is set.
fn replaced(net: &mut Net, vector: NodeId, spread: Spread) -> Result<NodeId, Memory>
    requires vector { IsNode net.old vector }
    requires mask { IsNodeOf net.old (width_at net.old vector) spread.mask }
    requires bits { IsNodeOf net.old (width_at net.old vector) spread.bits }
    ensures adds { AddsNodes net.old net.new }
    ensures shows { IfOk result (Shows net.old net.new (width_at net.old vector)
        (λ g. bit_or (value_at net.old g spread.bits)
        (bit_and (complement (width_at net.old vector) (value_at net.old g spread.mask))
        (value_at net.old g vector)))) }
{
    let outside = net.not(spread.mask)?;
    let kept = net.and(outside, vector)?;
    let whole = net.or(spread.bits, kept)?;
    Ok(whole)
}

/// A vector in which the bits from a place on are those of another node; bits past the vector are dropped (IEEE
/// 1364-2005, section 4.2.1).
pub(crate) fn put_at(
    net: &mut Net,
    vector: NodeId,
    place: BitPlace,
    value: NodeId,
) -> Result<NodeId, Memory>
    requires vector { IsNode net.old vector }
    requires place { IsPlaceIn net.old place }
    requires value { IsNode net.old value }
    ensures adds { AddsNodes net.old net.new }
    ensures there { IfOk result (IsNodeOf net.new (width_at net.old vector)) }
    ensures value { IfOk result (λ id. (g : Given) (p : ℤ) → IsGiven net.old g → IsAt net.old g place p
        → value_at net.new g id ≡ put_bits (width_at net.old value) (width_at net.old vector) p
        (value_at net.old g value) (value_at net.old g vector)) }
{
    match place {
        BitPlace::Fixed(at) => {
            let whole = put(net, vector, at, value)?;
            Ok(whole)
        }
        BitPlace::Varying(_) => {
            let width = net.width(vector);
            let spread = spread_bits(net, place, value, width)?;
            let whole = replaced(net, vector, spread)?;
            Ok(whole)
        }
    }
}
