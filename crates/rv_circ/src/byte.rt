//! Agreement on the bytes of memory.
#![tactic(auto, using(crate::proofs::NodeLemmas::nodes))]

ghost use Rattle.std.specs.Prelude.{◌≡◌, ◌==◌, not, ◌&&◌, ◌||◌, ◌<◌, bit_and, IfOk};
ghost use Rattle.fv_bits.specs.Bits.{bit};
ghost use Rattle.rv_table.specs.Agree as agree;
ghost use Rattle.wn_net.specs.Net.{IsNodeOf, value_at};
ghost use Rattle.wn_net.specs.Changes.{AddsNodes, Shows};
ghost use Rattle.rvfi_port.specs.Channels.{retire_at};
ghost use Rattle.rv_rows.specs.Effects.{AreEffect, effect_at};
ghost use Rattle.rvfi_port.specs.Ports.{AreChannelNodes};
ghost use Rattle.rv_circ.specs.Effects.{outcome_of};

use crate::effect::EffectNodes;
use crate::test::{has, same_byte};
use fv_text::Memory;
use rvfi_port::Channel;
use wn_net::{Net, NodeId};

/// 1 where a written byte was read too, and keeps its value.
fn keeps(net: &mut Net, channel: &Channel, index: u32) -> Result<NodeId, Memory>
    requires channel { AreChannelNodes net.old channel.now }
    requires within { index < 4 }
    ensures adds { AddsNodes net.old net.new }
    ensures shows { IfOk result (Shows net.old net.new 1
        (λ g. bit (agree.keeps (retire_at net.old g channel.now) index))) }
{
    let read = has(net, channel.mem_rmask, index)?;
    let same = same_byte(net, index, channel.mem_wdata, channel.mem_rdata)?;
    let test = net.and(read, same)?;
    Ok(test)
}

/// 1 where the byte is written with the word's.
fn is_written(net: &mut Net, channel: &Channel, word: NodeId, index: u32) -> Result<NodeId, Memory>
    requires channel { AreChannelNodes net.old channel.now }
    requires word { IsNodeOf net.old 32 word }
    requires within { index < 4 }
    ensures adds { AddsNodes net.old net.new }
    ensures shows { IfOk result (Shows net.old net.new 1
        (λ g. bit (agree.has (value_at net.old g channel.now.mem_wmask) index
        && agree.byte index (value_at net.old g channel.now.mem_wdata)
        == agree.byte index (value_at net.old g word)))) }
{
    let written = has(net, channel.mem_wmask, index)?;
    let same = same_byte(net, index, channel.mem_wdata, word)?;
    let test = net.and(written, same)?;
    Ok(test)
}

/// 1 where the byte isn't written, or keeps its value.
fn is_left(net: &mut Net, channel: &Channel, index: u32) -> Result<NodeId, Memory>
    requires channel { AreChannelNodes net.old channel.now }
    requires within { index < 4 }
    ensures adds { AddsNodes net.old net.new }
    ensures shows { IfOk result (Shows net.old net.new 1
        (λ g. bit (not (agree.has (value_at net.old g channel.now.mem_wmask) index)
        || agree.keeps (retire_at net.old g channel.now) index))) }
{
    let written = has(net, channel.mem_wmask, index)?;
    let unwritten = net.not(written)?;
    let kept = keeps(net, channel, index)?;
    let test = net.or(unwritten, kept)?;
    Ok(test)
}

fn written_agrees(
    net: &mut Net,
    channel: &Channel,
    effect: &EffectNodes,
    index: u32,
) -> Result<NodeId, Memory>
    requires channel { AreChannelNodes net.old channel.now }
    requires effect { AreEffect net.old (outcome_of effect.now) }
    requires within { index < 4 }
    ensures adds { AddsNodes net.old net.new }
    ensures shows { IfOk result (Shows net.old net.new 1
        (λ g. bit (agree.written_agrees (retire_at net.old g channel.now)
        (effect_at net.old g (outcome_of effect.now)) index))) }
{
    let wanted = has(net, effect.wmask, index)?;
    let written = is_written(net, channel, effect.wdata, index)?;
    let left = is_left(net, channel, index)?;
    let test = net.mux(wanted, written, left)?;
    Ok(test)
}

/// 1 where a byte that is to be read is.
fn read_agrees(
    net: &mut Net,
    channel: &Channel,
    effect: &EffectNodes,
    index: u32,
) -> Result<NodeId, Memory>
    requires channel { AreChannelNodes net.old channel.now }
    requires effect { AreEffect net.old (outcome_of effect.now) }
    requires within { index < 4 }
    ensures adds { AddsNodes net.old net.new }
    ensures shows { IfOk result (Shows net.old net.new 1
        (λ g. bit (not (agree.has (value_at net.old g effect.now.rmask) index)
        || agree.has (value_at net.old g channel.now.mem_rmask) index))) }
{
    let wanted = has(net, effect.rmask, index)?;
    let unwanted = net.not(wanted)?;
    let read = has(net, channel.mem_rmask, index)?;
    let test = net.or(unwanted, read)?;
    Ok(test)
}

fn byte_agrees(
    net: &mut Net,
    channel: &Channel,
    effect: &EffectNodes,
    index: u32,
) -> Result<NodeId, Memory>
    requires channel { AreChannelNodes net.old channel.now }
    requires effect { AreEffect net.old (outcome_of effect.now) }
    requires within { index < 4 }
    ensures adds { AddsNodes net.old net.new }
    ensures shows { IfOk result (Shows net.old net.new 1
        (λ g. bit (agree.byte_agrees (retire_at net.old g channel.now)
        (effect_at net.old g (outcome_of effect.now)) index))) }
{
    let written = written_agrees(net, channel, effect, index)?;
    let read = read_agrees(net, channel, effect, index)?;
    let test = net.and(written, read)?;
    Ok(test)
}

/// 1 where the byte agrees and the bit is 1.
fn byte_agrees_and(
    net: &mut Net,
    channel: &Channel,
    effect: &EffectNodes,
    index: u32,
    rest: NodeId,
) -> Result<NodeId, Memory>
    requires channel { AreChannelNodes net.old channel.now }
    requires effect { AreEffect net.old (outcome_of effect.now) }
    requires within { index < 4 }
    requires rest { IsNodeOf net.old 1 rest }
    ensures adds { AddsNodes net.old net.new }
    ensures shows { IfOk result (Shows net.old net.new 1
        (λ g. bit_and (bit (agree.byte_agrees (retire_at net.old g channel.now)
        (effect_at net.old g (outcome_of effect.now)) index)) (value_at net.old g rest))) }
{
    let byte = byte_agrees(net, channel, effect, index)?;
    let test = net.and(byte, rest)?;
    Ok(test)
}

/// 1 where all four bytes of the word agree.
pub(crate) fn bytes_agree(
    net: &mut Net,
    channel: &Channel,
    effect: &EffectNodes,
) -> Result<NodeId, Memory>
    requires channel { AreChannelNodes net.old channel.now }
    requires effect { AreEffect net.old (outcome_of effect.now) }
    ensures adds { AddsNodes net.old net.new }
    ensures shows { IfOk result (Shows net.old net.new 1
        (λ g. bit (agree.bytes_agree (retire_at net.old g channel.now)
        (effect_at net.old g (outcome_of effect.now))))) }
{
    let last = byte_agrees(net, channel, effect, 3)?;
    let two = byte_agrees_and(net, channel, effect, 2, last)?;
    let three = byte_agrees_and(net, channel, effect, 1, two)?;
    let all = byte_agrees_and(net, channel, effect, 0, three)?;
    Ok(all)
}
