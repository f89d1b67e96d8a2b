//! The bits of a node joined to one (IEEE 1364-2005, section 5.1.11).
#![tactic(auto, using(wn_net::proofs::Laws::additions, crate::proofs::FitLemmas::tests))]

ghost use Rattle.std.specs.Prelude.{◌≡◌, ◌<◌, ◌==◌, not, bit_xor, IfOk};
ghost use Rattle.fv_bits.specs.Bits as bits;
ghost use Rattle.vl_size.specs.Size as spec;
ghost use Rattle.wn_net.specs.Net.{IsNode, IsNodeOf, width_at, value_at};
ghost use Rattle.wn_net.specs.Changes.{AddsNodes, Shows};

use crate::width::{is_some, number};
use fv_text::Memory;
use vl_tree::UnaryOperator;
use wn_net::{Net, NodeId};

/// 1 where what the operator tests of all bits holds. `+`, `-` and `~` don't join bits.
pub fn reduced(net: &mut Net, operator: UnaryOperator, a: NodeId) -> Result<NodeId, Memory>
    requires there { IsNode net.old a }
    ensures adds { AddsNodes net.old net.new }
    ensures shows { IfOk result (Shows net.old net.new 1
        (λ g. bits.bit (spec.reduced operator (width_at net.old a) (value_at net.old g a)))) }
{
    match operator {
        UnaryOperator::LogicalNot | UnaryOperator::ReductionNor => Ok(is_none(net, a)?),
        UnaryOperator::ReductionOr => Ok(is_some(net, a)?),
        UnaryOperator::ReductionAnd => Ok(is_full(net, a)?),
        UnaryOperator::ReductionNand => Ok(some_clear(net, a)?),
        UnaryOperator::ReductionXor => Ok(odd(net, a)?),
        _ => Ok(even(net, a)?),
    }
}

/// 1 where the number is 0.
fn is_none(net: &mut Net, a: NodeId) -> Result<NodeId, Memory>
    requires there { IsNode net.old a }
    ensures adds { AddsNodes net.old net.new }
    ensures shows { IfOk result (Shows net.old net.new 1 (λ g. bits.bit (value_at net.old g a == 0))) }
{
    let width = net.width(a);
    let zero = number(net, width, 0)?;
    let same = net.eq(a, zero)?;
    Ok(same)
}

/// 1 where all bits are set.
fn is_full(net: &mut Net, a: NodeId) -> Result<NodeId, Memory>
    requires there { IsNode net.old a }
    ensures adds { AddsNodes net.old net.new }
    ensures shows { IfOk result (Shows net.old net.new 1
        (λ g. bits.bit (value_at net.old g a == bits.ones (width_at net.old a)))) }
{
    let width = net.width(a);
    let zero = number(net, width, 0)?;
    let ones = net.not(zero)?;
    let same = net.eq(a, ones)?;
    Ok(same)
}

/// 1 where a bit is clear.
fn some_clear(net: &mut Net, a: NodeId) -> Result<NodeId, Memory>
    requires there { IsNode net.old a }
    ensures adds { AddsNodes net.old net.new }
    ensures shows { IfOk result (Shows net.old net.new 1
        (λ g. bits.bit (not (value_at net.old g a == bits.ones (width_at net.old a))))) }
{
    let full = is_full(net, a)?;
    let turned = net.not(full)?;
    Ok(turned)
}

#[tactic(auto, using(crate::proofs::ParityLemmas::parities))]
/// 1 where an odd number of bits is set, from the highest down.
fn odd(net: &mut Net, a: NodeId) -> Result<NodeId, Memory>
    requires there { IsNode net.old a }
    ensures adds { AddsNodes net.old net.new }
    ensures shows { IfOk result (Shows net.old net.new 1
        (λ g. bits.bit (bits.parity (width_at net.old a) (value_at net.old g a)))) }
{
    let mut place = net.width(a);
    let mut odd = number(net, 1, 0)?;
    while place > 0 {
        place -= 1;
        odd = odd_from(net, a, place, odd)?;
    }
    Ok(odd)
}

/// The same from a place on, by what it is from the next place on.
fn odd_from(net: &mut Net, a: NodeId, place: u32, behind: NodeId) -> Result<NodeId, Memory>
    requires there { IsNode net.old a }
    requires within { place < width_at net.old a }
    requires behind { IsNodeOf net.old 1 behind }
    ensures adds { AddsNodes net.old net.new }
    ensures shows { IfOk result (Shows net.old net.new 1
        (λ g. bit_xor (bits.part place 1 (value_at net.old g a)) (value_at net.old g behind))) }
{
    let bit = net.slice(a, place, 1)?;
    let odd = net.xor(bit, behind)?;
    Ok(odd)
}

/// 1 where an even number of bits is set.
fn even(net: &mut Net, a: NodeId) -> Result<NodeId, Memory>
    requires there { IsNode net.old a }
    ensures adds { AddsNodes net.old net.new }
    ensures shows { IfOk result (Shows net.old net.new 1
        (λ g. bits.bit (not (bits.parity (width_at net.old a) (value_at net.old g a))))) }
{
    let odd = odd(net, a)?;
    let turned = net.not(odd)?;
    Ok(turned)
}
