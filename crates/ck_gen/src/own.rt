//! Properties of one retirement alone.
#![tactic(auto, using(wn_net::proofs::Laws::additions, ck_history::proofs::Laws::truths))]

ghost use Rattle.std.specs.Prelude.{◌≡◌, ◌==◌, ◌+◌, ◌/◌, ◌%◌, ◌^◌, ◌&&◌, Some, IfOk};
ghost use Rattle.wn_net.specs.Net.{IsNodeOf, value_at};
ghost use Rattle.wn_net.specs.Changes.{AddsNodes};
ghost use Rattle.ck_history.specs.Truths.{Tells, is_one};
ghost use Rattle.rvfi_port.specs.Channels.{retire_at};
ghost use Rattle.ck_spec.specs.Properties as properties;
ghost use Rattle.rvfi_port.specs.Ports.{AreChannelNodes, AreImemNodes};
ghost use Rattle.ck_gen.specs.Retirements.{imem_addr_at, imem_data_at};
ghost use Rattle.ck_gen.specs.Monitors as monitors;
ghost use Rattle.ck_gen.specs.Monitors.{probe_of};

use ck_cfg::{Check, CheckKind};
use ck_history::{both, either, is_number, is_same, turned};
use fv_text::{Memory, Word};
use rv_circ::{agreement, circuit};
use rv_table::{Opts, RowId};
use rv_words::bit;
use rvfi_port::Channel;
use wn_net::{Net, NodeId};

/// Whether the second says yes where the first does.
fn implied(net: &mut Net, a: NodeId, b: NodeId) -> Result<NodeId, Memory>
    requires left { IsNodeOf net.old 1 a }
    requires right { IsNodeOf net.old 1 b }
    ensures adds { AddsNodes net.old net.new }
    ensures tells { IfOk result (Tells net.old net.new
        (λ g. properties.implies (is_one net.old g a) (is_one net.old g b))) }
{
    let other = turned(net, a)?;
    let id = either(net, other, b)?;
    Ok(id)
}

/// Whether the word, where it is one of the row, does what the row does.
fn does_as(net: &mut Net, channel: &Channel, row: RowId, opts: Opts) -> Result<NodeId, Memory>
    requires { AreChannelNodes net.old channel.now }
    ensures adds { AddsNodes net.old net.new }
    ensures tells { IfOk result (Tells net.old net.new
        (λ g. properties.does_as_row (Some row) opts (retire_at net.old g channel.now))) }
{
    let effect = circuit(net, channel, row, opts)?;
    let agrees = agreement(net, channel, &effect)?;
    let id = implied(net, effect.hit, agrees)?;
    Ok(id)
}

/// The same of a check's row; where it has none, nothing is asked.
fn does_as_row(
    net: &mut Net,
    channel: &Channel,
    row: Option<RowId>,
    opts: Opts,
) -> Result<NodeId, Memory>
    requires { AreChannelNodes net.old channel.now }
    ensures adds { AddsNodes net.old net.new }
    ensures tells { IfOk result (Tells net.old net.new
        (λ g. properties.does_as_row row opts (retire_at net.old g channel.now))) }
{
    match row {
        Some(row) => does_as(net, channel, row, opts),
        None => bit(net, true),
    }
}

/// Whether the lower half of a word is 0.
fn is_zero_half(net: &mut Net, insn: NodeId) -> Result<NodeId, Memory>
    requires { IsNodeOf net.old 32 insn }
    ensures adds { AddsNodes net.old net.new }
    ensures tells { IfOk result (Tells net.old net.new (λ g. value_at net.old g insn % 2 ^ 16 == 0)) }
{
    let half = net.slice(insn, 0, 16)?;
    let id = is_number(net, half, 0)?;
    Ok(id)
}

/// Whether it traps, and writes no register and no memory.
fn is_quiet(net: &mut Net, channel: &Channel) -> Result<NodeId, Memory>
    requires { AreChannelNodes net.old channel.now }
    ensures adds { AddsNodes net.old net.new }
    ensures tells { IfOk result (Tells net.old net.new (λ g. is_one net.old g channel.now.trap
        && value_at net.old g channel.now.rd_addr == 0 && value_at net.old g channel.now.mem_wmask == 0)) }
{
    let no_register = is_number(net, channel.rd_addr, 0)?;
    let traps = both(net, channel.trap, no_register)?;
    let no_memory = is_number(net, channel.mem_wmask, 0)?;
    let id = both(net, traps, no_memory)?;
    Ok(id)
}

/// Whether a word of 16 zero bits traps, and writes nothing.
pub(crate) fn traps_zeros(net: &mut Net, channel: &Channel) -> Result<NodeId, Memory>
    requires { AreChannelNodes net.old channel.now }
    ensures adds { AddsNodes net.old net.new }
    ensures tells { IfOk result (Tells net.old net.new
        (λ g. properties.traps_zeros (retire_at net.old g channel.now))) }
{
    let zero = is_zero_half(net, channel.insn)?;
    let quiet = is_quiet(net, channel)?;
    let id = implied(net, zero, quiet)?;
    Ok(id)
}

/// Whether the lower half of a word is this one.
fn has_low_half(net: &mut Net, insn: NodeId, half_word: NodeId) -> Result<NodeId, Memory>
    requires insn { IsNodeOf net.old 32 insn }
    requires half_word { IsNodeOf net.old 16 half_word }
    ensures adds { AddsNodes net.old net.new }
    ensures tells { IfOk result (Tells net.old net.new
        (λ g. value_at net.old g insn % 2 ^ 16 == value_at net.old g half_word)) }
{
    let half = net.slice(insn, 0, 16)?;
    let id = is_same(net, half, half_word)?;
    Ok(id)
}

/// Whether the upper half is.
fn has_high_half(net: &mut Net, insn: NodeId, half_word: NodeId) -> Result<NodeId, Memory>
    requires insn { IsNodeOf net.old 32 insn }
    requires half_word { IsNodeOf net.old 16 half_word }
    ensures adds { AddsNodes net.old net.new }
    ensures tells { IfOk result (Tells net.old net.new
        (λ g. value_at net.old g insn / 2 ^ 16 == value_at net.old g half_word)) }
{
    let _ = net.width(insn);
    let half = net.slice(insn, 16, 16)?;
    let id = is_same(net, half, half_word)?;
    Ok(id)
}

/// Whether it has two halves.
fn is_long(net: &mut Net, insn: NodeId) -> Result<NodeId, Memory>
    requires { IsNodeOf net.old 32 insn }
    ensures adds { AddsNodes net.old net.new }
    ensures tells { IfOk result (Tells net.old net.new (λ g. value_at net.old g insn % 4 == 3)) }
{
    let low = net.slice(insn, 0, 2)?;
    let id = is_number(net, low, 3)?;
    Ok(id)
}

/// Whether an address is that of the half word behind the one at another address.
fn is_behind(net: &mut Net, pc: NodeId, addr: NodeId) -> Result<NodeId, Memory>
    requires pc { IsNodeOf net.old 32 pc }
    requires addr { IsNodeOf net.old 32 addr }
    ensures adds { AddsNodes net.old net.new }
    ensures tells { IfOk result (Tells net.old net.new
        (λ g. (value_at net.old g pc + 2) % 2 ^ 32 == value_at net.old g addr)) }
{
    let Some(two) = Word::new(32, 2) else {
        return Err(Memory);
    };
    let two = net.konst(two)?;
    let next = net.add(pc, two)?;
    let id = is_same(net, next, addr)?;
    Ok(id)
}

/// Whether the lower half is the probed one, where it lies there.
fn has_probed_low(
    net: &mut Net,
    channel: &Channel,
    probe: (NodeId, NodeId),
) -> Result<NodeId, Memory>
    requires channel { AreChannelNodes net.old channel.now }
    requires addr { IsNodeOf net.old 32 probe.0 }
    requires half { IsNodeOf net.old 16 probe.1 }
    ensures adds { AddsNodes net.old net.new }
    ensures tells { IfOk result (Tells net.old net.new (λ g. properties.implies
        (value_at net.old g channel.now.pc_rdata == value_at net.old g probe.0)
        (value_at net.old g channel.now.insn % 2 ^ 16 == value_at net.old g probe.1))) }
{
    let here = is_same(net, channel.pc_rdata, probe.0)?;
    let half = has_low_half(net, channel.insn, probe.1)?;
    let id = implied(net, here, half)?;
    Ok(id)
}

/// Whether the upper half is, where there is one and it lies there.
fn has_probed_high(
    net: &mut Net,
    channel: &Channel,
    probe: (NodeId, NodeId),
) -> Result<NodeId, Memory>
    requires channel { AreChannelNodes net.old channel.now }
    requires addr { IsNodeOf net.old 32 probe.0 }
    requires half { IsNodeOf net.old 16 probe.1 }
    ensures adds { AddsNodes net.old net.new }
    ensures tells { IfOk result (Tells net.old net.new (λ g. properties.implies
        (value_at net.old g channel.now.insn % 4 == 3
        && (value_at net.old g channel.now.pc_rdata + 2) % 2 ^ 32 == value_at net.old g probe.0)
        (value_at net.old g channel.now.insn / 2 ^ 16 == value_at net.old g probe.1))) }
{
    let long = is_long(net, channel.insn)?;
    let behind = is_behind(net, channel.pc_rdata, probe.0)?;
    let here = both(net, long, behind)?;
    let half = has_high_half(net, channel.insn, probe.1)?;
    let id = implied(net, here, half)?;
    Ok(id)
}

/// Whether the half words of the instruction that lie at the probed address are the probed one.
pub(crate) fn has_probed_halves(
    net: &mut Net,
    channel: &Channel,
    probe: (NodeId, NodeId),
) -> Result<NodeId, Memory>
    requires channel { AreChannelNodes net.old channel.now }
    requires addr { IsNodeOf net.old 32 probe.0 }
    requires half { IsNodeOf net.old 16 probe.1 }
    ensures adds { AddsNodes net.old net.new }
    ensures tells { IfOk result (Tells net.old net.new (λ g. properties.has_probed_halves
        (probe_of (value_at net.old g probe.0) (value_at net.old g probe.1)) (retire_at net.old g channel.now))) }
{
    let low = has_probed_low(net, channel, probe)?;
    let high = has_probed_high(net, channel, probe)?;
    let id = both(net, low, high)?;
    Ok(id)
}

/// Whether the retirement in a channel holds what the check asks of it alone.
pub(crate) fn holds_alone(
    net: &mut Net,
    check: &Check,
    channel: &Channel,
    imem: Option<(NodeId, NodeId)>,
    opts: Opts,
) -> Result<NodeId, Memory>
    requires kind { monitors.LooksAtOne check.now.kind }
    requires channel { AreChannelNodes net.old channel.now }
    requires imem { AreImemNodes net.old imem }
    ensures adds { AddsNodes net.old net.new }
    ensures tells { IfOk result (Tells net.old net.new (λ g. monitors.holds_alone check.now.row opts
        (probe_of (imem_addr_at net.old g imem) (imem_data_at net.old g imem)) (retire_at net.old g channel.now)
        check.now.kind)) }
{
    match check.kind {
        CheckKind::Insn => does_as_row(net, channel, check.row, opts),
        CheckKind::Ill => traps_zeros(net, channel),
        _ => match imem {
            Some(probe) => has_probed_halves(net, channel, probe),
            None => Err(Memory),
        },
    }
}
