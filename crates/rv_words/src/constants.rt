//! Nodes that have one number in every cycle.
#![tactic(auto, using(wn_net::proofs::Laws::additions))]

ghost use Rattle.std.specs.Prelude.{◌≡◌, ◌<◌, ◌≤◌, ◌^◌, IfOk};
ghost use Rattle.fv_bits.specs.Bits.{bit};
ghost use Rattle.wn_net.specs.Changes.{AddsNodes, Shows};

use fv_text::{Memory, Word};
use wn_net::{Net, NodeId};

/// A number in so many bits.
pub fn constant(net: &mut Net, width: u32, number: u32) -> Result<NodeId, Memory>
    requires some { 1 ≤ width }
    requires few { width ≤ 64 }
    requires within { number < 2 ^ width }
    ensures adds { AddsNodes net.old net.new }
    ensures shows { IfOk result (Shows net.old net.new width (λ g. number)) }
{
    let low = u64::from(number);
    let node = net.konst(Word {
        width,
        high: 0,
        low,
    })?;
    Ok(node)
}

/// A word that is a number.
pub fn word(net: &mut Net, number: u32) -> Result<NodeId, Memory>
    ensures adds { AddsNodes net.old net.new }
    ensures shows { IfOk result (Shows net.old net.new 32 (λ g. number)) }
{
    constant(net, 32, number)
}

/// One bit that is 1 or 0.
pub fn bit(net: &mut Net, set: bool) -> Result<NodeId, Memory>
    ensures adds { AddsNodes net.old net.new }
    ensures shows { IfOk result (Shows net.old net.new 1 (λ g. bit set)) }
{
    constant(net, 1, u32::from(set))
}
