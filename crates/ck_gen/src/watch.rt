#![tactic(auto, using(wn_net::proofs::Laws::additions, ck_history::proofs::Laws::truths))]

ghost use Rattle.std.specs.Prelude.{◌≡◌, ◌==◌, ◌*◌, ◌+◌, ◌-◌, ◌<◌, ◌≤◌, ◌&&◌, not, length, IfOk, OnErr};
ghost use Rattle.wn_net.specs.Net.{IsNodeOf};
ghost use Rattle.wn_net.specs.Changes.{AddsNodes, AddsRegs};
ghost use Rattle.ck_history.specs.Truths.{Tells, is_one};
ghost use Rattle.ck_cfg.specs.Lawful.{IsCheck};
ghost use Rattle.ck_history.specs.Lines.{AddsKnown};
ghost use Rattle.rvfi_port.specs.Ports.{ArePortNodes};
ghost use Rattle.ck_gen.specs.Kept as kept;
ghost use Rattle.ck_gen.specs.Around.{LooksAround, place_of, earlier_of};
ghost use Rattle.ck_gen.specs.Monitors as monitors;

use crate::around::look_around;
use crate::earlier::holds;
use crate::kept::kept_words;
use crate::own::holds_alone;
use ck_cfg::{Check, CheckKind};
use ck_history::{both, history, turned, unpack};
use ck_spec::looks_both_ways;
use fv_text::Memory;
use rv_table::Opts;
use rvfi_port::{Channel, Port};
use std::alloc::Global;
use wn_net::{Net, NodeId};

/// Whether there is a retirement, and it doesn't hold.
fn violates(net: &mut Net, there: NodeId, holds: NodeId) -> Result<NodeId, Memory>
    requires there { IsNodeOf net.old 1 there }
    requires holds { IsNodeOf net.old 1 holds }
    ensures adds { AddsNodes net.old net.new }
    ensures tells { IfOk result (Tells net.old net.new (λ g. is_one net.old g there && not (is_one net.old g holds))) }
{
    let fails = turned(net, holds)?;
    let id = both(net, there, fails)?;
    Ok(id)
}

/// The words of what counts as earlier, where the retirement that a check of the kind is about has this place.
fn earlier_words(
    alloc: Global,
    kind: CheckKind,
    place: usize,
    words: &[NodeId],
) -> Result<Vec<NodeId>, Memory>
    requires { place < length words.now }
    ensures { IfOk result (λ made. made.items ≡ earlier_of kind place words.now) }
{
    let mut made = Vec::new(alloc);
    if looks_both_ways(kind) {
        made.extend_from_slice(&words[..place])?;
    }
    made.extend_from_slice(&words[place + 1..])?;
    Ok(made)
}

/// The monitor of a check that looks back.
#[tactic(auto, using(wn_net::proofs::Laws::additions, wn_net::proofs::Laws::adds_regs, wn_net::proofs::Laws::regs_on))]
fn look_back(alloc: Global, net: &mut Net, port: &Port, check: &Check) -> Result<NodeId, Memory>
    requires kind { kept.LooksBack check.now.kind }
    requires port { ArePortNodes net.old port.now }
    requires check { IsCheck (length port.now.channels) check.now }
    requires few { length port.now.channels ≤ 2 }
    requires room { length net.old.regs ≤ 50000000 }
    ensures adds { AddsRegs net.old net.new }
    ensures known { IfOk result (λ id. AddsKnown net.old net.new
        (length port.now.channels * (check.now.cycle - check.now.start))) }
    ensures there { IfOk result (IsNodeOf net.new 1) }
    ensures fails { IfOk result (λ id. (opts : Opts) → monitors.IsMonitor net.new port.now check.now opts id) }
{
    let channels = port.channels.as_slice();
    let words = kept_words(alloc, net, check.kind, channels)?;
    let shown = history(alloc, net, words.as_slice(), check.cycle - check.start)?;
    let _ = net.nodes();
    let place = channels.len() - 1 - check.channel as usize;
    let earlier = earlier_words(alloc, check.kind, place, shown.as_slice())?;
    let channel = &channels[check.channel as usize];
    let held = holds(net, check.kind, channel, port.dmem, earlier.as_slice())?;
    let id = violates(net, channel.valid, held)?;
    let _ = net.nodes();
    Ok(id)
}

/// The place of the trigger's retirement in its channel among the words of a history.
#[tactic(auto, using(crate::proofs::Counts::place_within))]
fn trigger_place(check: &Check, channels: usize) -> usize
    requires check { IsCheck channels check.now }
    requires few { channels ≤ 2 }
    ensures value { result ≡ place_of check.now channels }
    ensures within { result < channels * (check.now.cycle - check.now.start + 1) }
{
    let later = (check.cycle - check.trig) as usize;
    later * channels + (channels - 1 - check.channel as usize)
}

/// The monitor of a check that looks around.
#[tactic(auto, using(wn_net::proofs::Laws::additions, wn_net::proofs::Laws::adds_regs, wn_net::proofs::Laws::regs_on))]
fn turn_around(alloc: Global, net: &mut Net, port: &Port, check: &Check) -> Result<NodeId, Memory>
    requires kind { LooksAround check.now.kind }
    requires port { ArePortNodes net.old port.now }
    requires check { IsCheck (length port.now.channels) check.now }
    requires few { length port.now.channels ≤ 2 }
    requires room { length net.old.regs ≤ 50000000 }
    ensures adds { AddsRegs net.old net.new }
    ensures known { IfOk result (λ id. AddsKnown net.old net.new
        (length port.now.channels * (check.now.cycle - check.now.start))) }
    ensures there { IfOk result (IsNodeOf net.new 1) }
    ensures fails { IfOk result (λ id. (opts : Opts) → monitors.IsMonitor net.new port.now check.now opts id) }
{
    let channels = port.channels.as_slice();
    let words = kept_words(alloc, net, check.kind, channels)?;
    let shown = history(alloc, net, words.as_slice(), check.cycle - check.start)?;
    let _ = net.nodes();
    let place = trigger_place(check, channels.len());
    let own = unpack(net, shown[place])?;
    let held = look_around(net, check.kind, own, place, shown.as_slice())?;
    let id = violates(net, own.there, held)?;
    let _ = net.nodes();
    Ok(id)
}

/// The monitor of a check that looks at one retirement alone.
fn look_once(net: &mut Net, port: &Port, check: &Check, opts: Opts) -> Result<NodeId, Memory>
    requires kind { monitors.LooksAtOne check.now.kind }
    requires port { ArePortNodes net.old port.now }
    requires check { IsCheck (length port.now.channels) check.now }
    ensures adds { AddsNodes net.old net.new }
    ensures there { IfOk result (IsNodeOf net.new 1) }
    ensures fails { IfOk result (monitors.IsMonitor net.new port.now check.now opts) }
    ensures each { IfOk result (monitors.IsMonitorOfEachCycle net.new port.now check.now opts) }
{
    let channels = port.channels.as_slice();
    let channel = &channels[check.channel as usize];
    let held = holds_alone(net, check, channel, port.imem, opts)?;
    let id = violates(net, channel.valid, held)?;
    let _ = net.nodes();
    Ok(id)
}

/// The monitor, without giving nodes and registers back where no memory is left.
#[tactic(auto, using(wn_net::proofs::Laws::adds_regs, crate::proofs::Counts::few))]
fn add_monitor(
    alloc: Global,
    net: &mut Net,
    port: &Port,
    check: &Check,
    opts: Opts,
) -> Result<NodeId, Memory>
    requires port { ArePortNodes net.old port.now }
    requires check { IsCheck (length port.now.channels) check.now }
    requires few { length port.now.channels ≤ 2 }
    requires room { length net.old.regs ≤ 50000000 }
    ensures adds { AddsRegs net.old net.new }
    ensures known { IfOk result (λ id. monitors.AddsFew net.old net.new) }
    ensures there { IfOk result (IsNodeOf net.new 1) }
    ensures fails { IfOk result (monitors.IsMonitor net.new port.now check.now opts) }
    ensures each { IfOk result (monitors.NeedsNoRegisters
        (monitors.is_of_one_cycle check.now.kind) net.old net.new port.now check.now opts) }
{
    match check.kind {
        CheckKind::Insn | CheckKind::Ill | CheckKind::Imem => look_once(net, port, check, opts),
        CheckKind::Unique | CheckKind::Liveness => turn_around(alloc, net, port, check),
        _ => look_back(alloc, net, port, check),
    }
}

/// Adds the monitor of a check: a node that is 1, in the check's cycle of each run of the net, exactly where the check
/// doesn't have its property. After want of memory the net is as before.
pub fn monitor(
    alloc: Global,
    net: &mut Net,
    port: &Port,
    check: &Check,
    opts: Opts,
) -> Result<NodeId, Memory>
    requires port { ArePortNodes net.old port.now }
    requires check { IsCheck (length port.now.channels) check.now }
    requires few { length port.now.channels ≤ 2 }
    requires probe { monitors.HasProbe port.now check.now.kind }
    requires room { length net.old.regs ≤ 50000000 }
    ensures adds { AddsRegs net.old net.new }
    ensures known { IfOk result (λ id. monitors.AddsFew net.old net.new) }
    ensures there { IfOk result (IsNodeOf net.new 1) }
    ensures fails { IfOk result (monitors.IsMonitor net.new port.now check.now opts) }
    ensures each { IfOk result (monitors.NeedsNoRegisters
        (monitors.is_of_one_cycle check.now.kind) net.old net.new port.now check.now opts) }
    ensures same { OnErr result (net.new ≡ net.old) }
{
    let nodes = net.nodes().len();
    let regs = net.regs().len();
    match add_monitor(alloc, net, port, check, opts) {
        Ok(id) => Ok(id),
        Err(fault) => {
            net.cut(nodes, regs);
            Err(fault)
        }
    }
}
