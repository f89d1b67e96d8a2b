//! The step of an induction.
ghost use Rattle.std.specs.Prelude.{◌≡◌, ◌+◌, ◌-◌, ◌≤◌, ◌<◌, ◌^◌, [], length, map, IfOk};
ghost use Rattle.std.specs.List.{AllByRecursion};
ghost use Rattle.wn_net.specs.Net.{IsNode};
ghost use Rattle.bm_unroll.specs.Frames.{AreChosen, AreDistinct, IsFrames, source_width};
ghost use Rattle.bm_induct.specs.Halves.{HasStep, IsStepChoice, IsWithinBy};
ghost use Rattle.bm_induct.specs.Past.{SaysRun, fails_last};

use crate::fails::is_other;
use crate::how::Rebuild;
use crate::past::always;
use crate::top::{offset_of, rebuilt};
use bm_unroll::{Frames, unroll};
use ck_history::{both, turned};
use fv_text::Memory;
use std::alloc::Global;
use wn_net::{Net, NodeId};

/// Whether the node is other than 0 in this cycle and in none before.
fn fails_now(net: &mut Net, bad: NodeId) -> Result<NodeId, Memory>
    requires bad { IsNode net.old bad }
    requires room { length net.old.regs < 2 ^ 32 - 1 }
    ensures { IfOk result (SaysRun 1 (fails_last bad) net.old net.new) }
{
    let _ = net.nodes();
    let fails = is_other(net, bad)?;
    let _ = net.nodes();
    let holds = turned(net, fails)?;
    let _ = net.nodes();
    let past = always(net, holds)?;
    let _ = net.nodes();
    let id = both(net, past.before, fails)?;
    let _ = net.nodes();
    Ok(id)
}

/// The frames of `k + 1` cycles of a net, `k` from 1 to 100, from any state and with each reset 0: under each choice
/// all roots are other than 0 exactly where all assumptions hold in each cycle, and the bad node is 0 in the cycles
/// before `k` and other than 0 in `k`. Each register and each word of a memory is a source.
pub fn step(alloc: Global, net: &Net, bad: NodeId, k: u32) -> Result<Frames, Memory>
    requires bad { IsNode net.now bad }
    requires within { IsWithinBy 1 net.now }
    requires some { 1 ≤ k }
    requires few { k ≤ 100 }
    ensures whole { IfOk result IsFrames }
    ensures roots { IfOk result (HasStep net.now bad k) }
    ensures watch { IfOk result (λ f. f.watch ≡ []) }
    ensures sources { IfOk result (λ f. AllByRecursion (IsStepChoice net.now k) f.sources) }
    ensures widths { IfOk result (λ f. f.widths ≡ map (source_width net.now) f.sources) }
    ensures distinct { IfOk result (λ f. AreDistinct f.sources) }
    ensures chosen { IfOk result (λ f. AreChosen net.now f.widths f.sources) }
{
    let _ = net.nodes();
    let more = offset_of(net);
    let mut made = rebuilt(alloc, net, Rebuild::Freed)?;
    let _ = made.nodes();
    let higher = bad + more;
    let failed = fails_now(&mut made, higher)?;
    let _ = made.nodes();
    let frames = unroll(alloc, &made, failed, &[], k)?;
    Ok(frames)
}
