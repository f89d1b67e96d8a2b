//! A channel whose nodes are the numbers of a retirement.
#![tactic(auto, using(wn_net::proofs::Laws::additions))]

ghost use Rattle.std.specs.Prelude.{◌≡◌, ◌<◌, ◌^◌, IfOk};
ghost use Rattle.wn_net.specs.Net.{IsNodeOf};
ghost use Rattle.wn_net.specs.Changes.{AddsNodes};
ghost use Rattle.rvfi_port.specs.Ports.{AreChannelNodes};
ghost use Rattle.channel_answers.specs.Parts as parts;

use fv_text::Memory;
use rv_table::Retire;
use rv_words::{bit, constant, word};
use rvfi_port::Channel;
use wn_net::{Net, NodeId};

/// How an instruction retires.
#[derive(Debug, Clone, Copy, PartialEq, Eq)]
pub struct Flags {
    pub valid: NodeId,
    pub order: NodeId,
    pub trap: NodeId,
    pub halt: NodeId,
    pub intr: NodeId,
}

/// The addresses of its registers and the masks of its bytes.
#[derive(Debug, Clone, Copy, PartialEq, Eq)]
pub struct Numbers {
    pub rs1_addr: NodeId,
    pub rs2_addr: NodeId,
    pub rd_addr: NodeId,
    pub mem_rmask: NodeId,
    pub mem_wmask: NodeId,
}

/// What it finds.
#[derive(Debug, Clone, Copy, PartialEq, Eq)]
pub struct Sources {
    pub insn: NodeId,
    pub rs1_rdata: NodeId,
    pub rs2_rdata: NodeId,
    pub pc_rdata: NodeId,
    pub mem_rdata: NodeId,
}

/// What it leaves.
#[derive(Debug, Clone, Copy, PartialEq, Eq)]
pub struct Results {
    pub rd_wdata: NodeId,
    pub pc_wdata: NodeId,
    pub mem_addr: NodeId,
    pub mem_wdata: NodeId,
}

fn flag_nodes(net: &mut Net, retire: &Retire) -> Result<Flags, Memory>
    ensures adds { AddsNodes net.old net.new }
    ensures there { IfOk result (parts.AreFlags net.new) }
{
    let valid = bit(net, true)?;
    let order = constant(net, 64, 0)?;
    let trap = bit(net, retire.trap)?;
    let halt = bit(net, retire.halt)?;
    let intr = bit(net, retire.intr)?;
    Ok(Flags {
        valid,
        order,
        trap,
        halt,
        intr,
    })
}

fn number_nodes(net: &mut Net, retire: &Retire) -> Result<Numbers, Memory>
    ensures adds { AddsNodes net.old net.new }
    ensures there { IfOk result (parts.AreNumbers net.new) }
{
    let rs1_addr = constant(net, 5, retire.rs1_addr % 32)?;
    let rs2_addr = constant(net, 5, retire.rs2_addr % 32)?;
    let rd_addr = constant(net, 5, retire.rd_addr % 32)?;
    let mem_rmask = constant(net, 4, retire.mem_rmask % 16)?;
    let mem_wmask = constant(net, 4, retire.mem_wmask % 16)?;
    Ok(Numbers {
        rs1_addr,
        rs2_addr,
        rd_addr,
        mem_rmask,
        mem_wmask,
    })
}

fn source_nodes(net: &mut Net, retire: &Retire) -> Result<Sources, Memory>
    ensures adds { AddsNodes net.old net.new }
    ensures there { IfOk result (parts.AreSources net.new) }
{
    let insn = word(net, retire.insn)?;
    let rs1_rdata = word(net, retire.rs1_rdata)?;
    let rs2_rdata = word(net, retire.rs2_rdata)?;
    let pc_rdata = word(net, retire.pc_rdata)?;
    let mem_rdata = word(net, retire.mem_rdata)?;
    Ok(Sources {
        insn,
        rs1_rdata,
        rs2_rdata,
        pc_rdata,
        mem_rdata,
    })
}

fn result_nodes(net: &mut Net, retire: &Retire) -> Result<Results, Memory>
    ensures adds { AddsNodes net.old net.new }
    ensures there { IfOk result (parts.AreResults net.new) }
{
    let rd_wdata = word(net, retire.rd_wdata)?;
    let pc_wdata = word(net, retire.pc_wdata)?;
    let mem_addr = word(net, retire.mem_addr)?;
    let mem_wdata = word(net, retire.mem_wdata)?;
    Ok(Results {
        rd_wdata,
        pc_wdata,
        mem_addr,
        mem_wdata,
    })
}

/// A channel that shows the retirement.
pub(crate) fn play(net: &mut Net, retire: &Retire) -> Result<Channel, Memory>
    ensures adds { AddsNodes net.old net.new }
    ensures there { IfOk result (AreChannelNodes net.new) }
{
    let flags = flag_nodes(net, retire)?;
    let numbers = number_nodes(net, retire)?;
    let sources = source_nodes(net, retire)?;
    let results = result_nodes(net, retire)?;
    Ok(Channel {
        valid: flags.valid,
        order: flags.order,
        insn: sources.insn,
        trap: flags.trap,
        halt: flags.halt,
        intr: flags.intr,
        rs1_addr: numbers.rs1_addr,
        rs2_addr: numbers.rs2_addr,
        rs1_rdata: sources.rs1_rdata,
        rs2_rdata: sources.rs2_rdata,
        rd_addr: numbers.rd_addr,
        rd_wdata: results.rd_wdata,
        pc_rdata: sources.pc_rdata,
        pc_wdata: results.pc_wdata,
        mem_addr: results.mem_addr,
        mem_rmask: numbers.mem_rmask,
        mem_wmask: numbers.mem_wmask,
        mem_rdata: sources.mem_rdata,
        mem_wdata: results.mem_wdata,
    })
}
