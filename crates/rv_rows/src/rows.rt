//! What the rows of RV32I do, over the nodes of an instruction.
#![tactic(auto, using(crate::proofs::StepLemmas::steps), unfolding(rv_table::specs::Effect::base_effect))]

ghost use Rattle.std.specs.Prelude.{◌≡◌, ◌-◌, ◌%◌, IfOk};
ghost use Rattle.rv_table.specs.Effect as effect;
ghost use Rattle.rv_table.specs.declared.row.BaseRow.TheVariants as base;
ghost use Rattle.wn_net.specs.Changes.{AddsNodes};
ghost use Rattle.rv_words.specs.Nodes.{AreStep, step_at};
ghost use Rattle.rv_rows.specs.Effects.{ShowsEffect};

use crate::kinds::{branches, gives, jumps};
use crate::memory::{loads, stores};
use crate::multiply::multiply_result;
use crate::outcome::OutcomeNodes;
use fv_text::Memory;
use rv_table::{BaseRow, BranchRow, ImmediateRow, MultiplyRow, RegisterRow};
use rv_words::{
    StepNodes, even, i_immediate, immediate_result, is_taken, j_immediate, register_result, sum,
    u_immediate,
};
use wn_net::Net;

fn lui(net: &mut Net, step: &StepNodes) -> Result<OutcomeNodes, Memory>
    requires { AreStep net.old step.now }
    ensures adds { AddsNodes net.old net.new }
    ensures shows { IfOk result (ShowsEffect net.old net.new
        (λ g. effect.base_effect base.Lui (step_at net.old g step.now))) }
{
    let value = u_immediate(net, step.word)?;
    let outcome = gives(net, step, value)?;
    Ok(outcome)
}

fn auipc(net: &mut Net, step: &StepNodes) -> Result<OutcomeNodes, Memory>
    requires { AreStep net.old step.now }
    ensures adds { AddsNodes net.old net.new }
    ensures shows { IfOk result (ShowsEffect net.old net.new
        (λ g. effect.base_effect base.Auipc (step_at net.old g step.now))) }
{
    let offset = u_immediate(net, step.word)?;
    let value = sum(net, step.pc, offset)?;
    let outcome = gives(net, step, value)?;
    Ok(outcome)
}

fn jal(net: &mut Net, step: &StepNodes) -> Result<OutcomeNodes, Memory>
    requires { AreStep net.old step.now }
    ensures adds { AddsNodes net.old net.new }
    ensures shows { IfOk result (ShowsEffect net.old net.new
        (λ g. effect.base_effect base.Jal (step_at net.old g step.now))) }
{
    let offset = j_immediate(net, step.word)?;
    let target = sum(net, step.pc, offset)?;
    let outcome = jumps(net, step, target)?;
    Ok(outcome)
}

fn jalr(net: &mut Net, step: &StepNodes) -> Result<OutcomeNodes, Memory>
    requires { AreStep net.old step.now }
    ensures adds { AddsNodes net.old net.new }
    ensures shows { IfOk result (ShowsEffect net.old net.new
        (λ g. effect.base_effect base.Jalr (step_at net.old g step.now))) }
{
    let offset = i_immediate(net, step.word)?;
    let target = sum(net, step.s1, offset)?;
    let target = even(net, target)?;
    let outcome = jumps(net, step, target)?;
    Ok(outcome)
}

fn branch(net: &mut Net, step: &StepNodes, row: BranchRow) -> Result<OutcomeNodes, Memory>
    requires { AreStep net.old step.now }
    ensures adds { AddsNodes net.old net.new }
    ensures shows { IfOk result (ShowsEffect net.old net.new
        (λ g. effect.base_effect (base.Branch row) (step_at net.old g step.now))) }
{
    let taken = is_taken(net, row, step.s1, step.s2)?;
    let outcome = branches(net, step, taken)?;
    Ok(outcome)
}

fn immediate(net: &mut Net, step: &StepNodes, row: ImmediateRow) -> Result<OutcomeNodes, Memory>
    requires { AreStep net.old step.now }
    ensures adds { AddsNodes net.old net.new }
    ensures shows { IfOk result (ShowsEffect net.old net.new
        (λ g. effect.base_effect (base.Immediate row) (step_at net.old g step.now))) }
{
    let right = i_immediate(net, step.word)?;
    let value = immediate_result(net, row, step.s1, right)?;
    let outcome = gives(net, step, value)?;
    Ok(outcome)
}

fn register(net: &mut Net, step: &StepNodes, row: RegisterRow) -> Result<OutcomeNodes, Memory>
    requires { AreStep net.old step.now }
    ensures adds { AddsNodes net.old net.new }
    ensures shows { IfOk result (ShowsEffect net.old net.new
        (λ g. effect.base_effect (base.Register row) (step_at net.old g step.now))) }
{
    let value = register_result(net, row, step.s1, step.s2)?;
    let outcome = gives(net, step, value)?;
    Ok(outcome)
}

fn multiply(net: &mut Net, step: &StepNodes, row: MultiplyRow) -> Result<OutcomeNodes, Memory>
    requires { AreStep net.old step.now }
    ensures adds { AddsNodes net.old net.new }
    ensures shows { IfOk result (ShowsEffect net.old net.new
        (λ g. effect.base_effect (base.Multiply row) (step_at net.old g step.now))) }
{
    let value = multiply_result(net, row, step.opts.altops, step.s1, step.s2)?;
    let outcome = gives(net, step, value)?;
    Ok(outcome)
}

/// What an instruction of the row does.
pub fn base_effect(net: &mut Net, row: BaseRow, step: &StepNodes) -> Result<OutcomeNodes, Memory>
    requires { AreStep net.old step.now }
    ensures adds { AddsNodes net.old net.new }
    ensures shows { IfOk result (ShowsEffect net.old net.new
        (λ g. effect.base_effect row (step_at net.old g step.now))) }
{
    match row {
        BaseRow::Lui => lui(net, step),
        BaseRow::Auipc => auipc(net, step),
        BaseRow::Jal => jal(net, step),
        BaseRow::Jalr => jalr(net, step),
        BaseRow::Branch(row) => branch(net, step, row),
        BaseRow::Load(row) => loads(net, step, row),
        BaseRow::Store(row) => stores(net, step, row),
        BaseRow::Immediate(row) => immediate(net, step, row),
        BaseRow::Register(row) => register(net, step, row),
        BaseRow::Multiply(row) => multiply(net, step, row),
    }
}
