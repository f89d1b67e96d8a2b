//! The bits of a word, and words of bits.
#![tactic(auto, using(wn_net::proofs::Laws::additions))]

ghost use Rattle.std.specs.Prelude.{◌≡◌, ◌+◌, ◌-◌, ◌<◌, ◌≤◌, ◌^◌, IfOk};
ghost use Rattle.fv_bits.specs.Bits.{joined};
ghost use Rattle.rv_table.specs.Fields as fields;
ghost use Rattle.wn_net.specs.Net.{IsNodeOf, value_at};
ghost use Rattle.wn_net.specs.Changes.{AddsNodes, Shows};

use crate::constants::constant;
use fv_text::Memory;
use wn_net::{Net, NodeId};

/// The bits `high:low` of a word, in as many bits.
#[tactic(auto, using(wn_net::proofs::Laws::additions), unfolding(rv_table::specs::Fields::field))]
pub fn field(net: &mut Net, word: NodeId, high: u32, low: u32) -> Result<NodeId, Memory>
    requires there { IsNodeOf net.old 32 word }
    requires order { low ≤ high }
    requires within { high < 32 }
    ensures adds { AddsNodes net.old net.new }
    ensures shows { IfOk result (Shows net.old net.new (high + 1 - low)
        (λ g. fields.field high low (value_at net.old g word))) }
{
    let node = net.slice(word, low, high + 1 - low)?;
    Ok(node)
}

/// The bits of the first node in front of those of the second.
pub fn join(
    net: &mut Net,
    high: NodeId,
    front: u32,
    low: NodeId,
    behind: u32,
) -> Result<NodeId, Memory>
    requires high { IsNodeOf net.old front high }
    requires low { IsNodeOf net.old behind low }
    requires few { front + behind ≤ 128 }
    ensures adds { AddsNodes net.old net.new }
    ensures shows { IfOk result (Shows net.old net.new (front + behind)
        (λ g. joined behind (value_at net.old g high) (value_at net.old g low))) }
{
    let node = net.concat(high, low)?;
    Ok(node)
}

/// The bits of a node of this width in front of the bits `high:low` of the word.
pub fn beside(
    net: &mut Net,
    front: NodeId,
    width: u32,
    word: NodeId,
    high: u32,
    low: u32,
) -> Result<NodeId, Memory>
    requires front { IsNodeOf net.old width front }
    requires few { width ≤ 64 }
    requires there { IsNodeOf net.old 32 word }
    requires order { low ≤ high }
    requires within { high < 32 }
    ensures adds { AddsNodes net.old net.new }
    ensures shows { IfOk result (Shows net.old net.new (width + (high + 1 - low))
        (λ g. joined (high + 1 - low) (value_at net.old g front)
        (fields.field high low (value_at net.old g word)))) }
{
    let bits = field(net, word, high, low)?;
    let node = join(net, front, width, bits, high + 1 - low)?;
    Ok(node)
}

/// The bits of a node of this width, with so many zeros below.
#[tactic(auto, using(wn_net::proofs::Laws::additions, std::proofs::lemmas::Nat::pow_pos))]
pub fn raised(net: &mut Net, node: NodeId, width: u32, zeros: u32) -> Result<NodeId, Memory>
    requires node { IsNodeOf net.old width node }
    requires few { width + zeros ≤ 32 }
    requires some { 1 ≤ zeros }
    ensures adds { AddsNodes net.old net.new }
    ensures shows { IfOk result (Shows net.old net.new (width + zeros)
        (λ g. joined zeros (value_at net.old g node) 0)) }
{
    let none = constant(net, zeros, 0)?;
    let node = join(net, node, width, none, zeros)?;
    Ok(node)
}

/// The word with the bits of a node of this width at its low end, and copies of the highest of them above.
#[tactic(auto, using(wn_net::proofs::Laws::additions), unfolding(rv_table::specs::Fields::sign_extended))]
pub fn sign_extended(net: &mut Net, node: NodeId, width: u32) -> Result<NodeId, Memory>
    requires node { IsNodeOf net.old width node }
    requires narrow { width ≤ 32 }
    ensures adds { AddsNodes net.old net.new }
    ensures shows { IfOk result (Shows net.old net.new 32
        (λ g. fields.sign_extended width (value_at net.old g node))) }
{
    let word = net.sext(node, 32)?;
    Ok(word)
}
