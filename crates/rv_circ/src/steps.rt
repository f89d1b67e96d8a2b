//! The nodes of an instruction, from those of a channel.
#![tactic(auto, using(rv_rows::proofs::StepLemmas::steps))]

ghost use Rattle.std.specs.Prelude.{◌≡◌, ◌+◌, ◌≤◌, ◌<◌, ◌^◌, IfOk};
ghost use Rattle.rv_table.specs.Effect as effect;
ghost use Rattle.rv_table.specs.Fields as fields;
ghost use Rattle.wn_net.specs.Net.{IsNodeOf, value_at};
ghost use Rattle.wn_net.specs.Changes.{AddsNodes, Shows};
ghost use Rattle.rvfi_port.specs.Ports.{AreChannelNodes};
ghost use Rattle.rv_circ.specs.Steps.{ShowsAddresses, ShowsStep};

use fv_text::Memory;
use rv_table::{Form, Opts};
use rv_words::{StepNodes, constant, field, unless_x0};
use rvfi_port::Channel;
use wn_net::{Net, NodeId};

fn reads_first(form: Form) -> bool
    ensures { result ≡ effect.reads_first form }
{
    match form {
        Form::R | Form::I | Form::S | Form::B => true,
        Form::U | Form::J => false,
    }
}

fn reads_second(form: Form) -> bool
    ensures { result ≡ effect.reads_second form }
{
    match form {
        Form::R | Form::S | Form::B => true,
        Form::I | Form::U | Form::J => false,
    }
}

fn writes(form: Form) -> bool
    ensures { result ≡ effect.writes form }
{
    match form {
        Form::R | Form::I | Form::U | Form::J => true,
        Form::S | Form::B => false,
    }
}

/// The address of a register in the bits from `low` on, where the form has it, and else 0.
fn register(net: &mut Net, there: bool, word: NodeId, low: u32) -> Result<NodeId, Memory>
    requires word { IsNodeOf net.old 32 word }
    requires low { low ≤ 20 }
    ensures adds { AddsNodes net.old net.new }
    ensures shows { IfOk result (Shows net.old net.new 5
        (λ g. effect.where_there there (fields.field (low + 4) low (value_at net.old g word)))) }
{
    if there {
        field(net, word, low + 4, low)
    } else {
        constant(net, 5, 0)
    }
}

/// The addresses of an instruction's registers, 0 where its form has none.
#[derive(Debug, Clone, Copy, PartialEq, Eq)]
pub struct Addresses {
    pub rs1: NodeId,
    pub rs2: NodeId,
    pub rd: NodeId,
}

fn register_addresses(net: &mut Net, form: Form, word: NodeId) -> Result<Addresses, Memory>
    requires { IsNodeOf net.old 32 word }
    ensures adds { AddsNodes net.old net.new }
    ensures shows { IfOk result (ShowsAddresses net.old net.new form word) }
{
    let rs1 = register(net, reads_first(form), word, 15)?;
    let rs2 = register(net, reads_second(form), word, 20)?;
    let rd = register(net, writes(form), word, 7)?;
    Ok(Addresses { rs1, rs2, rd })
}

/// The word of an instruction of the form, of so many bytes, with what the channel gives it.
#[tactic(auto, using(rv_rows::proofs::StepLemmas::steps), unfolding(rv_table::specs::Effect::step))]
pub(crate) fn step_nodes(
    net: &mut Net,
    channel: &Channel,
    form: Form,
    word: NodeId,
    length: u32,
    opts: Opts,
) -> Result<StepNodes, Memory>
    requires word { IsNodeOf net.old 32 word }
    requires channel { AreChannelNodes net.old channel.now }
    ensures adds { AddsNodes net.old net.new }
    ensures shows { IfOk result (ShowsStep net.old net.new form word length channel.now opts) }
{
    let addresses = register_addresses(net, form, word)?;
    let s1 = unless_x0(net, addresses.rs1, channel.rs1_rdata)?;
    let s2 = unless_x0(net, addresses.rs2, channel.rs2_rdata)?;
    Ok(StepNodes {
        word,
        length,
        rs1_addr: addresses.rs1,
        rs2_addr: addresses.rs2,
        rd_addr: addresses.rd,
        s1,
        s2,
        pc: channel.pc_rdata,
        mem_rdata: channel.mem_rdata,
        opts,
    })
}
