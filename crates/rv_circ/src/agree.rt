//! Agreement of a retirement with an effect.
#![tactic(auto, using(crate::proofs::NodeLemmas::nodes))]

ghost use Rattle.std.specs.Prelude.{◌≡◌, ◌==◌, ◌&&◌, ◌||◌, bit_and, IfOk, OnErr};
ghost use Rattle.fv_bits.specs.Bits.{bit};
ghost use Rattle.rv_table.specs.Agree as agree;
ghost use Rattle.wn_net.specs.Net.{IsNodeOf, value_at};
ghost use Rattle.wn_net.specs.Changes.{AddsNodes, Shows};
ghost use Rattle.rvfi_port.specs.Channels.{retire_at};
ghost use Rattle.rv_rows.specs.Effects.{AreEffect, effect_at};
ghost use Rattle.rvfi_port.specs.Ports.{AreChannelNodes};
ghost use Rattle.rv_circ.specs.Effects.{outcome_of};

use crate::byte::bytes_agree;
use crate::effect::EffectNodes;
use crate::test::{equal, same, source_agrees};
use fv_text::Memory;
use rv_words::is_number;
use rvfi_port::Channel;
use wn_net::{Net, NodeId};

/// 1 where neither mask has a byte.
fn reaches_nothing(net: &mut Net, effect: &EffectNodes) -> Result<NodeId, Memory>
    requires { AreEffect net.old (outcome_of effect.now) }
    ensures adds { AddsNodes net.old net.new }
    ensures shows { IfOk result (Shows net.old net.new 1
        (λ g. bit (value_at net.old g effect.now.rmask == 0 && value_at net.old g effect.now.wmask == 0))) }
{
    let unread = is_number(net, effect.rmask, 4, 0)?;
    let unwritten = is_number(net, effect.wmask, 4, 0)?;
    let test = net.and(unread, unwritten)?;
    Ok(test)
}

fn address_agrees(net: &mut Net, channel: &Channel, effect: &EffectNodes) -> Result<NodeId, Memory>
    requires channel { AreChannelNodes net.old channel.now }
    requires effect { AreEffect net.old (outcome_of effect.now) }
    ensures adds { AddsNodes net.old net.new }
    ensures shows { IfOk result (Shows net.old net.new 1
        (λ g. bit (agree.address_agrees (retire_at net.old g channel.now)
        (effect_at net.old g (outcome_of effect.now))))) }
{
    let none = reaches_nothing(net, effect)?;
    let same = equal(net, 32, channel.mem_addr, effect.mem_addr)?;
    let test = net.or(none, same)?;
    Ok(test)
}

/// 1 where memory agrees: the address where it counts, and the bytes.
fn memory_agrees(net: &mut Net, channel: &Channel, effect: &EffectNodes) -> Result<NodeId, Memory>
    requires channel { AreChannelNodes net.old channel.now }
    requires effect { AreEffect net.old (outcome_of effect.now) }
    ensures adds { AddsNodes net.old net.new }
    ensures shows { IfOk result (Shows net.old net.new 1
        (λ g. bit (agree.address_agrees (retire_at net.old g channel.now)
        (effect_at net.old g (outcome_of effect.now))
        && agree.bytes_agree (retire_at net.old g channel.now) (effect_at net.old g (outcome_of effect.now))))) }
{
    let address = address_agrees(net, channel, effect)?;
    let bytes = bytes_agree(net, channel, effect)?;
    let test = net.and(address, bytes)?;
    Ok(test)
}

/// 1 where two nodes of this width are equal and the bit is 1.
fn equal_and(
    net: &mut Net,
    width: u32,
    a: NodeId,
    b: NodeId,
    rest: NodeId,
) -> Result<NodeId, Memory>
    requires left { IsNodeOf net.old width a }
    requires right { IsNodeOf net.old width b }
    requires rest { IsNodeOf net.old 1 rest }
    ensures adds { AddsNodes net.old net.new }
    ensures shows { IfOk result (Shows net.old net.new 1
        (λ g. bit_and (bit (value_at net.old g a == value_at net.old g b)) (value_at net.old g rest))) }
{
    let same = equal(net, width, a, b)?;
    let test = net.and(same, rest)?;
    Ok(test)
}

fn results_agree(net: &mut Net, channel: &Channel, effect: &EffectNodes) -> Result<NodeId, Memory>
    requires channel { AreChannelNodes net.old channel.now }
    requires effect { AreEffect net.old (outcome_of effect.now) }
    ensures adds { AddsNodes net.old net.new }
    ensures shows { IfOk result (Shows net.old net.new 1
        (λ g. bit (agree.results_agree (retire_at net.old g channel.now)
        (effect_at net.old g (outcome_of effect.now))))) }
{
    let memory = memory_agrees(net, channel, effect)?;
    let next = equal_and(net, 32, channel.pc_wdata, effect.pc_wdata, memory)?;
    let data = equal_and(net, 32, channel.rd_wdata, effect.rd_wdata, next)?;
    let all = equal_and(net, 5, channel.rd_addr, effect.rd_addr, data)?;
    Ok(all)
}

/// 1 where the trap is told, and without one the results agree.
fn outcome_agrees(net: &mut Net, channel: &Channel, effect: &EffectNodes) -> Result<NodeId, Memory>
    requires channel { AreChannelNodes net.old channel.now }
    requires effect { AreEffect net.old (outcome_of effect.now) }
    ensures adds { AddsNodes net.old net.new }
    ensures shows { IfOk result (Shows net.old net.new 1
        (λ g. bit (agree.same (value_at net.old g channel.now.trap == 1) (value_at net.old g effect.now.trap == 1)
        && (value_at net.old g effect.now.trap == 1 || agree.results_agree (retire_at net.old g channel.now)
        (effect_at net.old g (outcome_of effect.now)))))) }
{
    let _ = net.width(effect.trap);
    let same = same(net, channel.trap, effect.trap)?;
    let results = results_agree(net, channel, effect)?;
    let rest = net.or(effect.trap, results)?;
    let test = net.and(same, rest)?;
    Ok(test)
}

fn first_source_agrees(
    net: &mut Net,
    channel: &Channel,
    effect: &EffectNodes,
) -> Result<NodeId, Memory>
    requires channel { AreChannelNodes net.old channel.now }
    requires effect { AreEffect net.old (outcome_of effect.now) }
    ensures adds { AddsNodes net.old net.new }
    ensures shows { IfOk result (Shows net.old net.new 1
        (λ g. bit (agree.source_agrees (value_at net.old g effect.now.rs1_addr)
        (value_at net.old g channel.now.rs1_addr) (value_at net.old g channel.now.rs1_rdata)))) }
{
    source_agrees(net, effect.rs1_addr, channel.rs1_addr, channel.rs1_rdata)
}

fn second_source_agrees(
    net: &mut Net,
    channel: &Channel,
    effect: &EffectNodes,
) -> Result<NodeId, Memory>
    requires channel { AreChannelNodes net.old channel.now }
    requires effect { AreEffect net.old (outcome_of effect.now) }
    ensures adds { AddsNodes net.old net.new }
    ensures shows { IfOk result (Shows net.old net.new 1
        (λ g. bit (agree.source_agrees (value_at net.old g effect.now.rs2_addr)
        (value_at net.old g channel.now.rs2_addr) (value_at net.old g channel.now.rs2_rdata)))) }
{
    source_agrees(net, effect.rs2_addr, channel.rs2_addr, channel.rs2_rdata)
}

fn add_agreement(net: &mut Net, channel: &Channel, effect: &EffectNodes) -> Result<NodeId, Memory>
    requires channel { AreChannelNodes net.old channel.now }
    requires effect { AreEffect net.old (outcome_of effect.now) }
    ensures adds { AddsNodes net.old net.new }
    ensures shows { IfOk result (Shows net.old net.new 1
        (λ g. bit (agree.agrees (retire_at net.old g channel.now) (effect_at net.old g (outcome_of effect.now))))) }
{
    let outcome = outcome_agrees(net, channel, effect)?;
    let second = second_source_agrees(net, channel, effect)?;
    let behind = net.and(second, outcome)?;
    let first = first_source_agrees(net, channel, effect)?;
    let test = net.and(first, behind)?;
    Ok(test)
}

/// 1 exactly where what the channel shows agrees with the effect that the nodes show. After want of memory the net is
/// as before.
pub fn agreement(net: &mut Net, channel: &Channel, effect: &EffectNodes) -> Result<NodeId, Memory>
    requires channel { AreChannelNodes net.old channel.now }
    requires effect { AreEffect net.old (outcome_of effect.now) }
    ensures adds { AddsNodes net.old net.new }
    ensures shows { IfOk result (Shows net.old net.new 1
        (λ g. bit (agree.agrees (retire_at net.old g channel.now) (effect_at net.old g (outcome_of effect.now))))) }
    ensures same { OnErr result (net.new ≡ net.old) }
{
    let nodes = net.nodes().len();
    let regs = net.regs().len();
    match add_agreement(net, channel, effect) {
        Ok(test) => Ok(test),
        Err(fault) => {
            net.cut(nodes, regs);
            Err(fault)
        }
    }
}
