//! The circuit of a row.
#![tactic(auto, using(crate::proofs::ChannelLemmas::channels))]

ghost use Rattle.std.specs.Prelude.{◌≡◌, IfOk, OnErr};
ghost use Rattle.fv_bits.specs.Bits.{bit};
ghost use Rattle.rv_table.specs.Effect as effect;
ghost use Rattle.rv_table.specs.Matching.{matches};
ghost use Rattle.rv_table.specs.declared.row.RowId.TheVariants.{Compressed};
ghost use Rattle.wn_net.specs.Net.{IsNodeOf, value_at};
ghost use Rattle.wn_net.specs.Changes.{AddsNodes, Shows};
ghost use Rattle.rvfi_port.specs.Channels.{retire_at};
ghost use Rattle.rv_rows.specs.Effects.{ShowsEffect};
ghost use Rattle.rvfi_port.specs.Ports.{AreChannelNodes};
ghost use Rattle.rv_circ.specs.Effects.{outcome_of};

use crate::steps::step_nodes;
use fv_text::Memory;
use rv_expand::expansion;
use rv_rows::{OutcomeNodes, base_effect};
use rv_table::{BaseRow, CompressedRow, Opts, RowId};
use rv_words::hit;
use rvfi_port::Channel;
use wn_net::{Net, NodeId};

/// Where a channel's word is one of a row, and what an instruction of the row does: nodes of a net. The hit and the
/// trap have one bit, an address of a register five, a mask four, and the others 32.
#[derive(Debug, Clone, Copy, PartialEq, Eq)]
pub struct EffectNodes {
    pub hit: NodeId,
    pub rs1_addr: NodeId,
    pub rs2_addr: NodeId,
    pub rd_addr: NodeId,
    pub rd_wdata: NodeId,
    pub pc_wdata: NodeId,
    pub mem_addr: NodeId,
    pub rmask: NodeId,
    pub wmask: NodeId,
    pub wdata: NodeId,
    pub trap: NodeId,
}

/// What a word of the row does, which takes so many bytes.
fn word_effect(
    net: &mut Net,
    channel: &Channel,
    row: BaseRow,
    word: NodeId,
    length: u32,
    opts: Opts,
) -> Result<OutcomeNodes, Memory>
    requires channel { AreChannelNodes net.old channel.now }
    requires word { IsNodeOf net.old 32 word }
    ensures adds { AddsNodes net.old net.new }
    ensures shows { IfOk result (ShowsEffect net.old net.new (λ g. effect.word_effect row
        (value_at net.old g word) length (retire_at net.old g channel.now) opts)) }
{
    let step = step_nodes(net, channel, row.pattern().form, word, length, opts)?;
    let outcome = base_effect(net, row, &step)?;
    Ok(outcome)
}

/// What a half word of the row does: what the word does that it stands for, which takes two bytes.
fn compressed_effect(
    net: &mut Net,
    channel: &Channel,
    row: CompressedRow,
    opts: Opts,
) -> Result<OutcomeNodes, Memory>
    requires { AreChannelNodes net.old channel.now }
    ensures adds { AddsNodes net.old net.new }
    ensures shows { IfOk result (ShowsEffect net.old net.new
        (λ g. effect.effect (Compressed row) (retire_at net.old g channel.now) opts)) }
{
    let word = expansion(net, row, channel.insn)?;
    let outcome = word_effect(net, channel, row.base(), word, 2, opts)?;
    Ok(outcome)
}

/// What an instruction of the row does.
#[tactic(auto, using(crate::proofs::ChannelLemmas::channels), unfolding(rv_table::specs::Effect::effect))]
fn outcome(net: &mut Net, channel: &Channel, row: RowId, opts: Opts) -> Result<OutcomeNodes, Memory>
    requires { AreChannelNodes net.old channel.now }
    ensures adds { AddsNodes net.old net.new }
    ensures shows { IfOk result (ShowsEffect net.old net.new
        (λ g. effect.effect row (retire_at net.old g channel.now) opts)) }
{
    match row {
        RowId::Base(row) => word_effect(net, channel, row, channel.insn, 4, opts),
        RowId::Compressed(row) => compressed_effect(net, channel, row, opts),
    }
}

fn add_circuit(
    net: &mut Net,
    channel: &Channel,
    row: RowId,
    opts: Opts,
) -> Result<EffectNodes, Memory>
    requires { AreChannelNodes net.old channel.now }
    ensures adds { AddsNodes net.old net.new }
    ensures hit { IfOk result (λ e. Shows net.old net.new 1
        (λ g. bit (matches row (value_at net.old g channel.now.insn))) e.hit) }
    ensures effect { IfOk result (λ e. ShowsEffect net.old net.new
        (λ g. effect.effect row (retire_at net.old g channel.now) opts) (outcome_of e)) }
{
    let hit = hit(net, channel.insn, row)?;
    let outcome = outcome(net, channel, row, opts)?;
    Ok(EffectNodes {
        hit,
        rs1_addr: outcome.rs1_addr,
        rs2_addr: outcome.rs2_addr,
        rd_addr: outcome.rd_addr,
        rd_wdata: outcome.rd_wdata,
        pc_wdata: outcome.pc_wdata,
        mem_addr: outcome.mem_addr,
        rmask: outcome.rmask,
        wmask: outcome.wmask,
        wdata: outcome.wdata,
        trap: outcome.trap,
    })
}

/// The circuit of the row over the channel: `hit` is 1 exactly where the channel's word is one of the row, and the
/// other nodes show what an instruction of the row does with what the channel shows. After want of memory the net is as
/// before.
pub fn circuit(
    net: &mut Net,
    channel: &Channel,
    row: RowId,
    opts: Opts,
) -> Result<EffectNodes, Memory>
    requires { AreChannelNodes net.old channel.now }
    ensures adds { AddsNodes net.old net.new }
    ensures hit { IfOk result (λ e. Shows net.old net.new 1
        (λ g. bit (matches row (value_at net.old g channel.now.insn))) e.hit) }
    ensures effect { IfOk result (λ e. ShowsEffect net.old net.new
        (λ g. effect.effect row (retire_at net.old g channel.now) opts) (outcome_of e)) }
    ensures same { OnErr result (net.new ≡ net.old) }
{
    let nodes = net.nodes().len();
    let regs = net.regs().len();
    match add_circuit(net, channel, row, opts) {
        Ok(effect) => Ok(effect),
        Err(fault) => {
            net.cut(nodes, regs);
            Err(fault)
        }
    }
}
