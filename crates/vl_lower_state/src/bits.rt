//! Bits gathered from a node.
#![tactic(auto, using(wn_net::proofs::Laws::additions))]

ghost use Rattle.std.specs.Prelude.{◌≡◌, ◌≤◌, ◌<◌, ℕ, Some, IfOk, IsTrue, length, slice_get};
ghost use Rattle.wn_net.specs.Net.{IsNode, width_at, value_at};
ghost use Rattle.wn_net.specs.Changes.{AddsNodes, Shows};
ghost use Rattle.vl_lower_spec.specs.Maps.{gathered};
ghost use Rattle.vl_lower_spec.specs.Sources.{below};

use fv_text::Memory;
use wn_net::{Net, NodeId};

/// Whether the bits are those of so many, in their order.
fn are_all(bits: &[u32], width: u32) -> bool
    ensures { IsTrue result → bits.now ≡ below width }
{
    for at in 0..bits.len() {
        if bits[at] as usize != at {
            return false;
        }
    }
    bits.len() == width as usize
}

/// One bit after the other, from the last one on.
fn joined_bits(net: &mut Net, node: NodeId, bits: &[u32]) -> Result<NodeId, Memory>
    requires node { IsNode net.old node }
    requires some { 1 ≤ length bits.now }
    requires few { length bits.now ≤ 128 }
    requires within { (j k : ℕ) → slice_get bits.now j ≡ Some k → k < width_at net.old node }
    ensures adds { AddsNodes net.old net.new }
    ensures shows { IfOk result (Shows net.old net.new (length bits.now)
        (λ g. gathered (value_at net.old g node) bits.now)) }
{
    let mut left = bits.len() - 1;
    let mut joined = net.slice(node, bits[left], 1)?;
    while left > 0 {
        left -= 1;
        let bit = net.slice(node, bits[left], 1)?;
        joined = net.concat(joined, bit)?;
    }
    Ok(joined)
}

/// A node of these bits of another one: its bit `j` is the bit `bits[j]`. The node itself where these are all its bits.
pub(crate) fn gather(net: &mut Net, node: NodeId, bits: &[u32]) -> Result<NodeId, Memory>
    requires node { IsNode net.old node }
    requires some { 1 ≤ length bits.now }
    requires few { length bits.now ≤ 128 }
    requires within { (j k : ℕ) → slice_get bits.now j ≡ Some k → k < width_at net.old node }
    ensures adds { AddsNodes net.old net.new }
    ensures shows { IfOk result (Shows net.old net.new (length bits.now)
        (λ g. gathered (value_at net.old g node) bits.now)) }
{
    let width = net.width(node);
    if are_all(bits, width) {
        return Ok(node);
    }
    Ok(joined_bits(net, node, bits)?)
}
