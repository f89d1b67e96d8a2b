//! The node of a question.

ghost use Rattle.std.specs.Prelude.{◌≡◌, ◌≤◌, length, slice_get, IfOk, OnErr};
ghost use Rattle.wn_net.specs.Net.{IsNodeOf};
ghost use Rattle.wn_net.specs.Changes.{AddsNodes, AddsRegs};
ghost use Rattle.ck_history.specs.Truths.{Tells};
ghost use Rattle.rvfi_port.specs.Ports.{ArePortNodes};
ghost use Rattle.ck_gen.specs.Monitors.{AddsFew};
ghost use Rattle.ck_cover.specs.Laws.{IsTarget};
ghost use Rattle.ck_ask.specs.Asked.{HasItsProbe, IsAsked, IsQuestion, IsZbCheck, NeedsNone, differs_at};
ghost use Rattle.ck_ask.specs.declared.question.Question.TheVariants as question;

use crate::question::Question;
use crate::zb_check::ZbCheck;
use ck_cover::{Target, goal};
use ck_gen::monitor;
use fv_text::Memory;
use rv_table::Opts;
use rv_zb::{ZbRow, zb_monitor};
use rvfi_port::Port;
use std::alloc::Global;
use wn_net::{Net, NodeId};

/// The node of a target.
fn ask_target(net: &mut Net, port: &Port, target: &Target) -> Result<NodeId, Memory>
    requires port { ArePortNodes net.old port.now }
    requires target { IsTarget (length port.now.channels) target.now }
    ensures adds { AddsNodes net.old net.new }
    ensures there { IfOk result (IsNodeOf net.new 1) }
    ensures tells { IfOk result (λ id. (opts : Opts) → IsAsked net.new port.now (question.Target target.now) opts id) }
    ensures same { OnErr result (net.new ≡ net.old) }
{
    let id = goal(net, port, target)?;
    let _ = net.nodes();
    Ok(id)
}

/// The node that says whether the channel of this number, where it is there, retires a word of the row and isn't what
/// the row does.
fn differs_at(net: &mut Net, port: &Port, index: u32, row: ZbRow) -> Result<NodeId, Memory>
    requires { ArePortNodes net.old port.now }
    ensures adds { AddsNodes net.old net.new }
    ensures tells { IfOk result (Tells net.old net.new
        (λ g. differs_at net.old g (slice_get port.now.channels index) row)) }
    ensures same { OnErr result (net.new ≡ net.old) }
{
    match port.channels.get(index as usize) {
        Some(channel) => zb_monitor(net, channel, row),
        None => Err(Memory),
    }
}

/// The node of a check of a row of Zba or Zbs.
fn ask_zb(net: &mut Net, port: &Port, check: &ZbCheck) -> Result<NodeId, Memory>
    requires port { ArePortNodes net.old port.now }
    requires check { IsZbCheck (length port.now.channels) check.now }
    ensures adds { AddsNodes net.old net.new }
    ensures there { IfOk result (IsNodeOf net.new 1) }
    ensures tells { IfOk result (λ id. (opts : Opts) → IsAsked net.new port.now (question.Zb check.now) opts id) }
    ensures same { OnErr result (net.new ≡ net.old) }
{
    let id = differs_at(net, port, check.channel, check.row)?;
    let _ = net.nodes();
    Ok(id)
}

/// Adds the node of a question: it is 1, in the question's cycle of each run of the net, exactly where the run gives
/// what is sought. After want of memory the net is as before.
pub fn ask(
    alloc: Global,
    net: &mut Net,
    port: &Port,
    question: &Question,
    opts: Opts,
) -> Result<NodeId, Memory>
    requires port { ArePortNodes net.old port.now }
    requires question { IsQuestion (length port.now.channels) question.now }
    requires few { length port.now.channels ≤ 2 }
    requires probe { HasItsProbe port.now question.now }
    requires room { length net.old.regs ≤ 50000000 }
    ensures adds { AddsRegs net.old net.new }
    ensures known { IfOk result (λ id. AddsFew net.old net.new) }
    ensures there { IfOk result (IsNodeOf net.new 1) }
    ensures tells { IfOk result (IsAsked net.new port.now question.now opts) }
    ensures none { IfOk result (NeedsNone net.old net.new port.now question.now opts) }
    ensures same { OnErr result (net.new ≡ net.old) }
{
    match question {
        Question::Check(check) => monitor(alloc, net, port, check, opts),
        Question::Target(target) => ask_target(net, port, target),
        Question::Zb(check) => ask_zb(net, port, check),
    }
}
