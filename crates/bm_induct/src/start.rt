//! The base of an induction.
ghost use Rattle.std.specs.Prelude.{◌≡◌, ◌==◌, ◌&&◌, not, true, suc, ◌+◌, ◌-◌, ◌≤◌, ◌<◌, ◌^◌};
ghost use Rattle.std.specs.Prelude.{[], length, map, IfOk};
ghost use Rattle.std.specs.List.{AllByRecursion};
ghost use Rattle.wn_net.specs.Net.{IsNode, IsNodeOf, AreNodes, value_at};
ghost use Rattle.wn_net.specs.Changes.{AddsNodes};
ghost use Rattle.ck_history.specs.Truths.{Tells, is_one};
ghost use Rattle.bm_unroll.specs.Frames.{AreChosen, AreDistinct, IsChoice, IsFrames, source_width};
ghost use Rattle.bm_induct.specs.Halves.{HasBase, IsWithinBy};
ghost use Rattle.bm_induct.specs.Past.{SaysRun, fails_first, in_some, is_met};

use crate::fails::{are_other, is_other, yes};
use crate::how::Rebuild;
use crate::past::{always, ever};
use crate::top::{offset_of, rebuilt};
use bm_unroll::{Frames, unroll};
use ck_history::both;
use fv_text::Memory;
use std::alloc::Global;
use wn_net::{Net, NodeId};

/// Nodes, by numbers that are higher.
fn moved_ids(alloc: Global, ids: &[NodeId], more: u64) -> Result<Vec<NodeId>, Memory>
    requires ids { AllByRecursion (λ id. id < 2 ^ 63) ids.now }
    requires few { more < 2 ^ 33 }
    ensures { IfOk result (λ made. made.items ≡ map (λ id. id + more) ids.now) }
{
    let mut made = Vec::with_capacity(alloc, ids.len())?;
    for id in ids {
        let copy = *id + more;
        made.push(copy)?;
    }
    Ok(made)
}

/// Whether all of these nodes are other than 0 in this cycle and in all before.
fn are_met(net: &mut Net, ids: &[NodeId]) -> Result<NodeId, Memory>
    requires ids { AreNodes net.old ids.now }
    requires room { length net.old.regs < 2 ^ 32 - 1 }
    ensures { IfOk result (SaysRun 1 (is_met ids.now) net.old net.new) }
{
    let _ = net.nodes();
    let now = are_other(net, ids)?;
    let _ = net.nodes();
    let past = always(net, now)?;
    Ok(past.now)
}

/// Whether this cycle isn't the first.
fn has_begun(net: &mut Net) -> Result<NodeId, Memory>
    requires room { length net.old.regs < 2 ^ 32 - 1 }
    ensures { IfOk result (SaysRun 1 (λ v k. in_some (λ j. true) k) net.old net.new) }
{
    let _ = net.nodes();
    let one = yes(net)?;
    let _ = net.nodes();
    let past = ever(net, one)?;
    Ok(past.before)
}

/// Whether two nodes say yes, and the third is other than 0.
fn and_fails(net: &mut Net, met: NodeId, begun: NodeId, bad: NodeId) -> Result<NodeId, Memory>
    requires met { IsNodeOf net.old 1 met }
    requires begun { IsNodeOf net.old 1 begun }
    requires bad { IsNode net.old bad }
    ensures adds { AddsNodes net.old net.new }
    ensures tells { IfOk result (Tells net.old net.new (λ g. is_one net.old g met
        && (is_one net.old g begun && not (value_at net.old g bad == 0)))) }
{
    let fails = is_other(net, bad)?;
    let fails = both(net, begun, fails)?;
    both(net, met, fails)
}

/// Whether the bad node was other than 0 in a cycle from 1 to this one up to which all assumptions hold.
fn has_failed(net: &mut Net, assumes: &[NodeId], bad: NodeId) -> Result<NodeId, Memory>
    requires assumes { AreNodes net.old assumes.now }
    requires bad { IsNode net.old bad }
    requires room { length net.old.regs < 2 ^ 32 - 3 }
    ensures { IfOk result (SaysRun 3 (λ v k. in_some (fails_first assumes.now bad v) (suc k)) net.old net.new) }
{
    let _ = net.nodes();
    let met = are_met(net, assumes)?;
    let _ = net.nodes();
    let begun = has_begun(net)?;
    let _ = net.nodes();
    let fails = and_fails(net, met, begun, bad)?;
    let _ = net.nodes();
    let found = ever(net, fails)?;
    Ok(found.now)
}

/// The frames of a net's runs up to `k`, from 1 to 100: under each choice all roots are other than 0 exactly where for
/// some `j` from 1 to `k` the run with it meets the assumptions in its cycles 0 to `j` and has the bad node other than
/// 0 in `j`.
pub fn base(alloc: Global, net: &Net, bad: NodeId, k: u32) -> Result<Frames, Memory>
    requires bad { IsNode net.now bad }
    requires within { IsWithinBy 3 net.now }
    requires some { 1 ≤ k }
    requires few { k ≤ 100 }
    ensures whole { IfOk result IsFrames }
    ensures roots { IfOk result (HasBase net.now bad k) }
    ensures watch { IfOk result (λ f. f.watch ≡ []) }
    ensures sources { IfOk result (λ f. AllByRecursion (IsChoice net.now k) f.sources) }
    ensures widths { IfOk result (λ f. f.widths ≡ map (source_width net.now) f.sources) }
    ensures distinct { IfOk result (λ f. AreDistinct f.sources) }
    ensures chosen { IfOk result (λ f. AreChosen net.now f.widths f.sources) }
{
    let _ = net.nodes();
    let more = offset_of(net);
    let mut made = rebuilt(alloc, net, Rebuild::Waived)?;
    let _ = made.nodes();
    let ids = moved_ids(alloc, net.assumes(), more)?;
    let higher = bad + more;
    let failed = has_failed(&mut made, ids.as_slice(), higher)?;
    let _ = made.nodes();
    let frames = unroll(alloc, &made, failed, &[], k)?;
    Ok(frames)
}
