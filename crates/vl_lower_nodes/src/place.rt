//! Where an index lies, counted from a base.
#![tactic(auto, using(wn_net::proofs::Laws::additions))]

ghost use Rattle.std.specs.Prelude.{◌≡◌, ◌<◌, ◌^◌, true, bit_and, IfOk, if◌then◌else◌};
ghost use Rattle.fv_bits.specs.Bits.{as_int, of_int, difference, complement, part};
ghost use Rattle.wn_net.specs.Value.{Given};
ghost use Rattle.wn_net.specs.Net.{IsNode, IsNodeOf, width_at, value_at};
ghost use Rattle.wn_net.specs.Given.{IsGiven};
ghost use Rattle.wn_net.specs.Changes.{AddsNodes, Shows};
ghost use Rattle.vl_lower_nodes.specs.Points.{IsAddress, distance, is_base};
ghost use Rattle.vl_lower_nodes.specs.Near.{chosen};

use crate::cut::cut;
use crate::width::number;
use fv_text::Memory;
use wn_net::{Net, NodeId};

/// A base as a number of 34 bits.
fn number_of(base: i64) -> u128
    requires { is_base base ≡ true }
    ensures value { result ≡ of_int 34 base }
    ensures fits { result < 2 ^ 34 }
{
    let size = u128::from(base.unsigned_abs());
    if base < 0 { (1 << 34) - size } else { size }
}

/// The distance in 34 bits, read as signed.
fn distance(net: &mut Net, index: NodeId, base: NodeId, along: bool) -> Result<NodeId, Memory>
    requires index { IsNodeOf net.old 34 index }
    requires base { IsNodeOf net.old 34 base }
    ensures adds { AddsNodes net.old net.new }
    ensures shows { IfOk result (Shows net.old net.new 34
        (λ g. if along then difference 34 (value_at net.old g index) (value_at net.old g base)
        else difference 34 (value_at net.old g base) (value_at net.old g index))) }
{
    if along {
        Ok(net.sub(index, base)?)
    } else {
        Ok(net.sub(base, index)?)
    }
}

/// 1 where a distance isn't below 0 and its index near.
fn within(net: &mut Net, distance: NodeId, near: NodeId) -> Result<NodeId, Memory>
    requires distance { IsNodeOf net.old 34 distance }
    requires near { IsNodeOf net.old 1 near }
    ensures adds { AddsNodes net.old net.new }
    ensures shows { IfOk result (Shows net.old net.new 1
        (λ g. bit_and (complement 1 (part 33 1 (value_at net.old g distance))) (value_at net.old g near))) }
{
    let sign = net.slice(distance, 33, 1)?;
    let above = net.not(sign)?;
    let within = net.and(above, near)?;
    Ok(within)
}

/// The distance where it isn't below 0 and its index near, and else a number past all places.
fn chosen(net: &mut Net, distance: NodeId, near: NodeId) -> Result<NodeId, Memory>
    requires distance { IsNodeOf net.old 34 distance }
    requires near { IsNodeOf net.old 1 near }
    ensures adds { AddsNodes net.old net.new }
    ensures shows { IfOk result (Shows net.old net.new 34
        (λ g. chosen (value_at net.old g distance) (value_at net.old g near))) }
{
    let within = within(net, distance, near)?;
    let past = number(net, 34, (1 << 34) - 1)?;
    let address = net.mux(within, distance, past)?;
    Ok(address)
}

/// The place of an index, read by its sign: how far it is from the base, upwards or downwards (IEEE 1364-2005, section
/// 4.2.1); a number past all places where it lies behind the base or is too far.
pub fn address(
    net: &mut Net,
    index: NodeId,
    signed: bool,
    base: i64,
    along: bool,
) -> Result<NodeId, Memory>
    requires there { IsNode net.old index }
    requires base { is_base base ≡ true }
    ensures adds { AddsNodes net.old net.new }
    ensures there { IfOk result (IsNode net.new) }
    ensures value { IfOk result (λ id. (g : Given) → IsGiven net.old g → IsAddress (value_at net.new g id)
        (distance along base (as_int (width_at net.old index) signed (value_at net.old g index)))) }
{
    if along && !signed && base == 0 {
        return Ok(index);
    }
    let cut = cut(net, index, signed)?;
    let base = number(net, 34, number_of(base))?;
    let distance = distance(net, cut.index, base, along)?;
    let address = chosen(net, distance, cut.near)?;
    Ok(address)
}
