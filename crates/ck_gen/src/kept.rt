#![tactic(auto, using(wn_net::proofs::Laws::additions))]

ghost use Rattle.std.specs.Prelude.{◌≡◌, ◌==◌, ◌<◌, ◌≤◌, ◌^◌, length, map, IfOk};
ghost use Rattle.std.specs.List.{AllByRecursion};
ghost use Rattle.fv_bits.specs.Bits.{bit};
ghost use Rattle.wn_net.specs.Value.{Given};
ghost use Rattle.wn_net.specs.Net.{IsNodeOf, AreNodesOf, value_at};
ghost use Rattle.wn_net.specs.Changes.{AddsNodes};
ghost use Rattle.rvfi_port.specs.Channels.{retire_at};
ghost use Rattle.ck_history.specs.Entries.{AreEntryNodes, entry_at, packed};
ghost use Rattle.rvfi_port.specs.Ports.{AreChannelNodes};
ghost use Rattle.ck_gen.specs.Kept as spec;

use ck_cfg::CheckKind;
use ck_history::{EntryNodes, pack};
use fv_text::{Memory, Word};
use rvfi_port::Channel;
use std::alloc::Global;
use wn_net::{Net, NodeId};

/// A number of 5 bits.
fn constant(net: &mut Net, number: u128) -> Result<NodeId, Memory>
    requires { number < 2 ^ 5 }
    ensures adds { AddsNodes net.old net.new }
    ensures there { IfOk result (IsNodeOf net.new 5) }
    ensures value { IfOk result (λ id. (g : Given) → value_at net.new g id ≡ number) }
{
    let Some(word) = Word::new(5, number) else {
        return Err(Memory);
    };
    let id = net.konst(word)?;
    Ok(id)
}

/// A bit in 5 bits.
fn widened(net: &mut Net, small: NodeId) -> Result<NodeId, Memory>
    requires { IsNodeOf net.old 1 small }
    ensures adds { AddsNodes net.old net.new }
    ensures there { IfOk result (IsNodeOf net.new 5) }
    ensures value { IfOk result (λ id. (g : Given) → value_at net.new g id ≡ bit (value_at net.old g small == 1)) }
{
    let one = constant(net, 1)?;
    let zero = constant(net, 0)?;
    let id = net.mux(small, one, zero)?;
    Ok(id)
}

fn kept_key(net: &mut Net, kind: CheckKind, channel: &Channel) -> Result<NodeId, Memory>
    requires { AreChannelNodes net.old channel.now }
    ensures adds { AddsNodes net.old net.new }
    ensures there { IfOk result (IsNodeOf net.new 64) }
    ensures value { IfOk result (λ id. (g : Given)
        → value_at net.new g id ≡ (spec.kept kind 0 (retire_at net.old g channel.now)).key) }
{
    match kind {
        CheckKind::Dmem => {
            let id = net.zext(channel.mem_addr, 64)?;
            Ok(id)
        }
        _ => Ok(channel.order),
    }
}

fn kept_small(net: &mut Net, kind: CheckKind, channel: &Channel) -> Result<NodeId, Memory>
    requires { AreChannelNodes net.old channel.now }
    ensures adds { AddsNodes net.old net.new }
    ensures there { IfOk result (IsNodeOf net.new 5) }
    ensures value { IfOk result (λ id. (g : Given)
        → value_at net.new g id ≡ (spec.kept kind 0 (retire_at net.old g channel.now)).small) }
{
    match kind {
        CheckKind::Reg => Ok(channel.rd_addr),
        CheckKind::Causal => Ok(channel.rs1_addr),
        CheckKind::PcBwd => widened(net, channel.intr),
        CheckKind::Liveness => widened(net, channel.halt),
        CheckKind::Dmem => {
            let id = net.zext(channel.mem_wmask, 5)?;
            Ok(id)
        }
        _ => constant(net, 0),
    }
}

fn kept_word(net: &mut Net, kind: CheckKind, channel: &Channel) -> Result<NodeId, Memory>
    requires { AreChannelNodes net.old channel.now }
    ensures adds { AddsNodes net.old net.new }
    ensures there { IfOk result (IsNodeOf net.new 32) }
    ensures value { IfOk result (λ id. (g : Given)
        → value_at net.new g id ≡ (spec.kept kind 0 (retire_at net.old g channel.now)).word) }
{
    match kind {
        CheckKind::Reg => Ok(channel.rd_wdata),
        CheckKind::PcFwd => Ok(channel.pc_wdata),
        CheckKind::Causal => {
            let id = net.zext(channel.rs2_addr, 32)?;
            Ok(id)
        }
        CheckKind::Dmem => Ok(channel.mem_wdata),
        _ => Ok(channel.pc_rdata),
    }
}

/// What is kept of a channel, in one node.
fn kept_node(net: &mut Net, kind: CheckKind, channel: &Channel) -> Result<NodeId, Memory>
    requires { AreChannelNodes net.old channel.now }
    ensures adds { AddsNodes net.old net.new }
    ensures there { IfOk result (IsNodeOf net.new 102) }
    ensures value { IfOk result (λ id. (g : Given) → value_at net.new g id
        ≡ packed (spec.kept kind (value_at net.old g channel.now.valid) (retire_at net.old g channel.now))) }
{
    let key = kept_key(net, kind, channel)?;
    let small = kept_small(net, kind, channel)?;
    let word = kept_word(net, kind, channel)?;
    let there = channel.valid;
    pack(
        net,
        EntryNodes {
            there,
            key,
            small,
            word,
        },
    )
}

/// What is kept of each channel, the highest channel first.
pub fn kept_words(
    alloc: Global,
    net: &mut Net,
    kind: CheckKind,
    channels: &[Channel],
) -> Result<Vec<NodeId>, Memory>
    requires { AllByRecursion (AreChannelNodes net.old) channels.now }
    ensures adds { AddsNodes net.old net.new }
    ensures nodes { IfOk result (λ made. AreNodesOf net.new 102 made.items) }
    ensures many { IfOk result (λ made. length made.items ≡ length channels.now) }
    ensures values { IfOk result (λ made. (g : Given) → map (value_at net.new g) made.items
        ≡ map packed (spec.kept_in kind net.old g channels.now)) }
{
    let mut made = Vec::new(alloc);
    let mut place = channels.len();
    while place > 0 {
        place -= 1;
        let id = kept_node(net, kind, &channels[place])?;
        made.push(id)?;
    }
    Ok(made)
}
