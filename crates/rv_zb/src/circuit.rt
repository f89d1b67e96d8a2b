//! The circuit of a row.
#![tactic(auto, using(rv_circ::proofs::ChannelLemmas::channels))]

ghost use Rattle.std.specs.Prelude.{◌≡◌, ◌==◌, ◌+◌, ◌-◌, ◌<◌, ◌≤◌, ◌^◌, IfOk, OnErr};
ghost use Rattle.fv_bits.specs.Bits.{bit};
ghost use Rattle.rv_table.specs.Fields as fields;
ghost use Rattle.wn_net.specs.Net.{IsNodeOf, value_at};
ghost use Rattle.wn_net.specs.Changes.{AddsNodes, Shows};
ghost use Rattle.rvfi_port.specs.Channels.{retire_at};
ghost use Rattle.rvfi_port.specs.Ports.{AreChannelNodes};
ghost use Rattle.rv_rows.specs.Effects.{AreEffect, ShowsEffect, effect_at};
ghost use Rattle.rv_circ.specs.Effects.{outcome_of};
ghost use Rattle.rv_zb.specs.Rows.{zb_matches};
ghost use Rattle.rv_zb.specs.Effect.{no_opts, zb_effect};
ghost use Rattle.rv_zb.specs.Monitors as monitors;

use crate::nodes::result_node;
use crate::row::ZbRow;
use fv_text::Memory;
use rv_circ::{EffectNodes, circuit};
use rv_table::{BaseRow, ImmediateRow, Opts, RegisterRow, RowId};
use rv_words::{field, is_number, unless_x0};
use rvfi_port::Channel;
use wn_net::{Net, NodeId};

impl ZbRow {
    /// A row of RV32I of the same form.
    fn like(self) -> BaseRow
        ensures { result ≡ monitors.like self }
    {
        match self {
            ZbRow::ShiftAdd(_) | ZbRow::Bit(_) => BaseRow::Register(RegisterRow::Add),
            ZbRow::BitImmediate(_) => BaseRow::Immediate(ImmediateRow::Addi),
        }
    }
}

fn no_opts() -> Opts
    ensures { result ≡ no_opts }
{
    Opts {
        aligned: false,
        altops: false,
        c: false,
    }
}

/// 1 where the bits `high:low` of the word are the number.
fn is_field(net: &mut Net, word: NodeId, high: u32, low: u32, number: u32) -> Result<NodeId, Memory>
    requires word { IsNodeOf net.old 32 word }
    requires order { low ≤ high }
    requires within { high < 32 }
    requires small { number < 2 ^ (high + 1 - low) }
    ensures adds { AddsNodes net.old net.new }
    ensures shows { IfOk result (Shows net.old net.new 1
        (λ g. bit (fields.field high low (value_at net.old g word) == number))) }
{
    let bits = field(net, word, high, low)?;
    let test = is_number(net, bits, high + 1 - low, number)?;
    Ok(test)
}

/// 1 where the word is one of the row.
fn hit(net: &mut Net, word: NodeId, row: ZbRow) -> Result<NodeId, Memory>
    requires { IsNodeOf net.old 32 word }
    ensures adds { AddsNodes net.old net.new }
    ensures shows { IfOk result (Shows net.old net.new 1
        (λ g. bit (zb_matches row (value_at net.old g word)))) }
{
    let code = row.code();
    let opcode = is_field(net, word, 6, 0, code.opcode)?;
    let funct3 = is_field(net, word, 14, 12, code.funct3)?;
    let funct7 = is_field(net, word, 31, 25, code.funct7)?;
    let rest = net.and(funct3, funct7)?;
    let test = net.and(opcode, rest)?;
    Ok(test)
}

/// What rd gets, where an effect has these addresses.
fn result_beside(
    net: &mut Net,
    channel: &Channel,
    row: ZbRow,
    effect: &EffectNodes,
) -> Result<NodeId, Memory>
    requires channel { AreChannelNodes net.old channel.now }
    requires effect { AreEffect net.old (outcome_of effect.now) }
    ensures adds { AddsNodes net.old net.new }
    ensures shows { IfOk result (Shows net.old net.new 32
        (λ g. monitors.result_beside row (retire_at net.old g channel.now)
        (effect_at net.old g (outcome_of effect.now)))) }
{
    let s1 = unless_x0(net, effect.rs1_addr, channel.rs1_rdata)?;
    let s2 = unless_x0(net, effect.rs2_addr, channel.rs2_rdata)?;
    let value = result_node(net, row, channel.insn, s1, s2)?;
    let written = unless_x0(net, effect.rd_addr, value)?;
    Ok(written)
}

fn add_circuit(net: &mut Net, channel: &Channel, row: ZbRow) -> Result<EffectNodes, Memory>
    requires { AreChannelNodes net.old channel.now }
    ensures adds { AddsNodes net.old net.new }
    ensures hit { IfOk result (λ e. Shows net.old net.new 1
        (λ g. bit (zb_matches row (value_at net.old g channel.now.insn))) e.hit) }
    ensures effect { IfOk result (λ e. ShowsEffect net.old net.new
        (λ g. zb_effect row (retire_at net.old g channel.now)) (outcome_of e)) }
{
    let hit = hit(net, channel.insn, row)?;
    let like = circuit(net, channel, RowId::Base(row.like()), no_opts())?;
    let written = result_beside(net, channel, row, &like)?;
    Ok(EffectNodes {
        hit,
        rs1_addr: like.rs1_addr,
        rs2_addr: like.rs2_addr,
        rd_addr: like.rd_addr,
        rd_wdata: written,
        pc_wdata: like.pc_wdata,
        mem_addr: like.mem_addr,
        rmask: like.rmask,
        wmask: like.wmask,
        wdata: like.wdata,
        trap: like.trap,
    })
}

/// The circuit of the row over the channel: `hit` is 1 exactly where the channel's word is one of the row, and the
/// other nodes show what an instruction of the row does with what the channel shows. After want of memory the net is as
/// before.
pub fn zb_circuit(net: &mut Net, channel: &Channel, row: ZbRow) -> Result<EffectNodes, Memory>
    requires { AreChannelNodes net.old channel.now }
    ensures adds { AddsNodes net.old net.new }
    ensures hit { IfOk result (λ e. Shows net.old net.new 1
        (λ g. bit (zb_matches row (value_at net.old g channel.now.insn))) e.hit) }
    ensures effect { IfOk result (λ e. ShowsEffect net.old net.new
        (λ g. zb_effect row (retire_at net.old g channel.now)) (outcome_of e)) }
    ensures same { OnErr result (net.new ≡ net.old) }
{
    let nodes = net.nodes().len();
    let regs = net.regs().len();
    match add_circuit(net, channel, row) {
        Ok(effect) => Ok(effect),
        Err(fault) => {
            net.cut(nodes, regs);
            Err(fault)
        }
    }
}
