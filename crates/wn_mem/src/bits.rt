//! The bits of an address, each made once.
#![tactic(auto, using(wn_net::proofs::Laws::additions))]

ghost use Rattle.std.specs.Prelude.{◌≡◌, ◌==◌, ◌/◌, ◌^◌, ◌<◌, ◌≤◌, min, length, IfOk, OnOk};
ghost use Rattle.fv_bits.specs.Bits.{low, bit};
ghost use Rattle.wn_net.specs.Value.{Given};
ghost use Rattle.wn_net.specs.Net.{IsNode, IsNodeOf, AreNodesOf, value_at, width_at};
ghost use Rattle.wn_net.specs.Given.{IsGiven};
ghost use Rattle.wn_net.specs.Changes.{AddsNodes};
ghost use Rattle.wn_mem.specs.Words.{numbers_of, number_of};

use crate::constant::zero_of;
use fv_text::Memory;
use wn_net::{Net, NodeId};

/// Puts the lowest bits of a node, the highest of them first.
pub(crate) fn address_bits(net: &mut Net, addr: NodeId, bits: &mut [NodeId]) -> Result<(), Memory>
    requires addr { IsNode net.old addr }
    requires few { length bits.old ≤ 64 }
    requires within { length bits.old ≤ width_at net.old addr }
    ensures adds { AddsNodes net.old net.new }
    ensures long { length bits.new ≡ length bits.old }
    ensures nodes { OnOk result (AreNodesOf net.new 1 bits.new) }
    ensures value { OnOk result ((g : Given)
        → number_of (numbers_of net.new g bits.new) ≡ low (length bits.old) (value_at net.old g addr)) }
{
    let count = bits.len();
    for index in 0..count {
        let bit = net.slice(addr, (count - 1 - index) as u32, 1)?;
        bits[index] = bit;
    }
    Ok(())
}

/// 1 where the bits of a node from `count` on are 0.
pub(crate) fn is_low(net: &mut Net, addr: NodeId, count: u32) -> Result<NodeId, Memory>
    requires addr { IsNode net.old addr }
    requires more { count < width_at net.old addr }
    ensures adds { AddsNodes net.old net.new }
    ensures there { IfOk result (IsNodeOf net.new 1) }
    ensures value { IfOk result (λ id. (g : Given) → IsGiven net.old g
        → value_at net.new g id ≡ bit (value_at net.old g addr / 2 ^ count == 0)) }
{
    let width = net.width(addr);
    let high = net.slice(addr, count, width - count)?;
    let none = zero_of(net, high)?;
    let test = net.eq(high, none)?;
    Ok(test)
}

/// How many bits tell so many words apart; at most 63.
pub(crate) fn bits_for(words: usize) -> usize
    requires { words < 2 ^ 63 }
    ensures few { result ≤ 63 }
    ensures enough { words ≤ 2 ^ result }
{
    let mut bits = 0usize;
    while bits < 63 && words > 1usize << bits {
        bits += 1;
    }
    bits
}

/// How many of the words so many bits reach.
#[tactic(auto, using(std::proofs::lemmas::Nat::one_shl))]
pub(crate) fn reached(words: usize, bits: usize) -> usize
    requires { bits < 64 }
    ensures { result ≡ min words (2 ^ bits) }
{
    words.min(1 << bits)
}
