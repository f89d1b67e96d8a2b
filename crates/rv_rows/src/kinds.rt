//! The kinds of effects, over the nodes of an instruction.
#![tactic(auto, using(crate::proofs::StepLemmas::steps))]

ghost use Rattle.std.specs.Prelude.{
  ◌≡◌,
  ◌==◌,
  ◌&&◌,
  not,
  ◌%◌,
  IfOk,
};
ghost use Rattle.fv_bits.specs.Bits.{bit};
ghost use Rattle.rv_table.specs.Arithmetic.{sum};
ghost use Rattle.rv_table.specs.Immediates.{b_immediate};
ghost use Rattle.rv_table.specs.Effect as effect;
ghost use Rattle.wn_net.specs.Net.{IsNodeOf, value_at};
ghost use Rattle.wn_net.specs.Changes.{AddsNodes, Shows};
ghost use Rattle.rv_words.specs.Nodes.{AreStep, step_at};
ghost use Rattle.rv_rows.specs.Effects.{AreEffect, ShowsEffect, ShowZeros, effect_at, goes_where};

use crate::outcome::{OutcomeNodes, Zeros};
use fv_text::Memory;
use rv_words::{StepNodes, b_immediate, bit, constant, isnt_of_word, plus, sum, unless_x0, word};
use wn_net::{Net, NodeId};

fn zeros(net: &mut Net) -> Result<Zeros, Memory>
    ensures adds { AddsNodes net.old net.new }
    ensures shows { IfOk result (ShowZeros net.old net.new) }
{
    let word = word(net, 0)?;
    let mask = constant(net, 4, 0)?;
    let bit = bit(net, false)?;
    Ok(Zeros { word, mask, bit })
}

/// rd gets the value; the next instruction follows.
#[tactic(auto, using(crate::proofs::StepLemmas::steps), unfolding(rv_table::specs::Effect::gives))]
pub(crate) fn gives(net: &mut Net, step: &StepNodes, value: NodeId) -> Result<OutcomeNodes, Memory>
    requires step { AreStep net.old step.now }
    requires value { IsNodeOf net.old 32 value }
    ensures adds { AddsNodes net.old net.new }
    ensures shows { IfOk result (ShowsEffect net.old net.new
        (λ g. effect.gives (step_at net.old g step.now) (value_at net.old g value))) }
{
    let rd_wdata = unless_x0(net, step.rd_addr, value)?;
    let pc_wdata = plus(net, step.pc, step.length)?;
    let none = zeros(net)?;
    Ok(OutcomeNodes {
        rs1_addr: step.rs1_addr,
        rs2_addr: step.rs2_addr,
        rd_addr: step.rd_addr,
        rd_wdata,
        pc_wdata,
        mem_addr: none.word,
        rmask: none.mask,
        wmask: none.mask,
        wdata: none.word,
        trap: none.bit,
    })
}

fn is_misaligned_target(net: &mut Net, step: &StepNodes, target: NodeId) -> Result<NodeId, Memory>
    requires { IsNodeOf net.old 32 target }
    ensures adds { AddsNodes net.old net.new }
    ensures shows { IfOk result (Shows net.old net.new 1
        (λ g. bit (effect.is_misaligned_target (step_at net.old g step.now) (value_at net.old g target)))) }
{
    if step.opts.c {
        bit(net, false)
    } else {
        isnt_of_word(net, target)
    }
}

/// The same effect with this target, which traps where no instruction can stand.
fn goes_to(
    net: &mut Net,
    step: &StepNodes,
    target: NodeId,
    old: OutcomeNodes,
) -> Result<OutcomeNodes, Memory>
    requires target { IsNodeOf net.old 32 target }
    requires effect { AreEffect net.old old }
    ensures adds { AddsNodes net.old net.new }
    ensures shows { IfOk result (ShowsEffect net.old net.new (λ g. effect.goes_to (step_at net.old g step.now)
        (value_at net.old g target) (effect_at net.old g old))) }
{
    let trap = is_misaligned_target(net, step, target)?;
    let mut moved = old;
    moved.pc_wdata = target;
    moved.trap = trap;
    Ok(moved)
}

/// rd gets the next address; the target follows.
#[tactic(auto, using(crate::proofs::StepLemmas::steps), unfolding(rv_table::specs::Effect::jumps))]
pub(crate) fn jumps(net: &mut Net, step: &StepNodes, target: NodeId) -> Result<OutcomeNodes, Memory>
    requires step { AreStep net.old step.now }
    requires target { IsNodeOf net.old 32 target }
    ensures adds { AddsNodes net.old net.new }
    ensures shows { IfOk result (ShowsEffect net.old net.new
        (λ g. effect.jumps (step_at net.old g step.now) (value_at net.old g target))) }
{
    let next = plus(net, step.pc, step.length)?;
    let stays = gives(net, step, next)?;
    let moved = goes_to(net, step, target, stays)?;
    Ok(moved)
}

fn branch_target(net: &mut Net, step: &StepNodes) -> Result<NodeId, Memory>
    requires { AreStep net.old step.now }
    ensures adds { AddsNodes net.old net.new }
    ensures shows { IfOk result (Shows net.old net.new 32
        (λ g. sum (value_at net.old g step.now.pc) (b_immediate (value_at net.old g step.now.word)))) }
{
    let offset = b_immediate(net, step.word)?;
    let target = sum(net, step.pc, offset)?;
    Ok(target)
}

/// Where the bit is set, the effect with this target, and else as it was.
fn choose_target(
    net: &mut Net,
    step: &StepNodes,
    taken: NodeId,
    target: NodeId,
    old: OutcomeNodes,
) -> Result<OutcomeNodes, Memory>
    requires taken { IsNodeOf net.old 1 taken }
    requires target { IsNodeOf net.old 32 target }
    requires effect { AreEffect net.old old }
    ensures adds { AddsNodes net.old net.new }
    ensures shows { IfOk result (ShowsEffect net.old net.new (λ g. goes_where (step_at net.old g step.now)
        (value_at net.old g taken == 1) (value_at net.old g target) (effect_at net.old g old))) }
{
    let misaligned = is_misaligned_target(net, step, target)?;
    let trap = net.mux(taken, misaligned, old.trap)?;
    let pc_wdata = net.mux(taken, target, old.pc_wdata)?;
    let mut moved = old;
    moved.pc_wdata = pc_wdata;
    moved.trap = trap;
    Ok(moved)
}

/// A taken branch goes to pc plus its offset.
pub(crate) fn branches(
    net: &mut Net,
    step: &StepNodes,
    taken: NodeId,
) -> Result<OutcomeNodes, Memory>
    requires step { AreStep net.old step.now }
    requires taken { IsNodeOf net.old 1 taken }
    ensures adds { AddsNodes net.old net.new }
    ensures shows { IfOk result (ShowsEffect net.old net.new
        (λ g. effect.branches (step_at net.old g step.now) (value_at net.old g taken == 1))) }
{
    let zero = word(net, 0)?;
    let stays = gives(net, step, zero)?;
    let target = branch_target(net, step)?;
    let outcome = choose_target(net, step, taken, target, stays)?;
    Ok(outcome)
}
