ghost use Rattle.std.specs.Prelude.{◌≡◌, ◌++◌, ◌∷◌, [], IfOk, OnOk};
ghost use Rattle.fv_text.specs.declared.pos.Pos.{Pos};
ghost use Rattle.vl_tree.specs.Attributes.{Attributes};
ghost use Rattle.vl_tree.specs.Stmt as s;
ghost use Rattle.vl_tree.specs.StmtView.{arms, with_arm};
ghost use Rattle.vl_flow_cells.specs.Numbering.{IsNumberingOf};
ghost use Rattle.vl_flow_effects.specs.Effects.{IsEffectOf, IsEffectOfAll, IsEffectOfArm, IsEffectOfArms};
ghost use Rattle.vl_flow_cells.specs.Sized.{ArmsAreSized, IsSized, StmtIsSized, StmtsAreSized, TargetIsSized};

use crate::arms::has_default;
use crate::bits::{assign_reads, changes_of, label_bits, reads_of, sets_of};
use crate::effect::Effect;
use crate::joined::{in_sequence, of_case};
use fv_bit_sets::Bits;
use fv_text::Memory;
use std::alloc::Global;
use vl_flow_cells::Numbering;
use vl_size::Decls;
use vl_tree::{Arm, AssignKind, Expr, Lval, Stmt, StmtKind};

fn push(effects: &mut Vec<Effect>, effect: Effect) -> Result<(), Memory>
    ensures { OnOk result (effects.new.items ≡ effects.old.items ++ effect ∷ []) }
{
    if effects.push(effect).is_err() {
        return Err(Memory);
    }
    Ok(())
}

fn assign_effect(
    alloc: Global,
    target: &Lval,
    kind: AssignKind,
    expr: &Expr,
    decls: &Decls,
    numbering: &Numbering,
) -> Result<Effect, Memory>
    requires { IsNumberingOf decls.now numbering.now }
    ensures { IfOk result (λ effect. (attrs : Attributes) (p : Pos) → TargetIsSized decls.now target.now
        → IsSized decls.now expr.now
        → IsEffectOf decls.now effect (s.assign attrs p target.now kind expr.now)) }
{
    let needs = assign_reads(alloc, target, expr, decls, numbering)?;
    let changes = changes_of(alloc, target, decls, numbering)?;
    let surely = sets_of(alloc, target, decls, numbering)?;
    match kind {
        AssignKind::Blocking => {
            let sure = surely.with(&surely)?;
            Ok(Effect {
                needs,
                sure,
                surely,
                blocking: changes,
                nonblocking: Bits::none(alloc),
            })
        }
        AssignKind::Nonblocking => Ok(Effect {
            needs,
            sure: Bits::none(alloc),
            surely,
            blocking: Bits::none(alloc),
            nonblocking: changes,
        }),
    }
}

/// One of two statements behind the condition.
fn choice(
    alloc: Global,
    condition: &Expr,
    first: Effect,
    second: Effect,
    decls: &Decls,
    numbering: &Numbering,
) -> Result<Effect, Memory>
    requires { IsNumberingOf decls.now numbering.now }
    ensures one { IfOk result (λ effect. (attrs : Attributes) (p : Pos) (x : s.Stmt)
        → IsSized decls.now condition.now → IsEffectOf decls.now first x → IsEffectOf decls.now second (s.empty attrs p)
        → IsEffectOf decls.now effect (s.if_only attrs p condition.now x)) }
    ensures two { IfOk result (λ effect. (attrs : Attributes) (p : Pos) (x y : s.Stmt)
        → IsSized decls.now condition.now → IsEffectOf decls.now first x → IsEffectOf decls.now second y
        → IsEffectOf decls.now effect (s.if_else attrs p condition.now x y)) }
{
    let reads = reads_of(alloc, condition, decls, numbering)?;
    Ok(first.or(&second)?.behind(&reads)?)
}

/// What a statement does, path by path. Time is about linear in it.
#[cycle(effect)]
#[tactic(auto, using(vl_tree::specs::StmtFalls::parts_fall))]
pub(crate) fn effect_of(
    alloc: Global,
    stmt: &Stmt,
    decls: &Decls,
    numbering: &Numbering,
) -> Result<Effect, Memory>
    requires { IsNumberingOf decls.now numbering.now }
    ensures { IfOk result (λ effect. StmtIsSized decls.now stmt.now → IsEffectOf decls.now effect stmt.now) }
{
    match &stmt.kind {
        StmtKind::Begin(_, all) => Ok(sequence_effect(alloc, all.as_slice(), decls, numbering)?),
        StmtKind::If(condition, first, None) => {
            let first = effect_of(alloc, first, decls, numbering)?;
            Ok(choice(
                alloc,
                condition,
                first,
                Effect::none(alloc),
                decls,
                numbering,
            )?)
        }
        StmtKind::If(condition, first, Some(second)) => {
            let first = effect_of(alloc, first, decls, numbering)?;
            let second = effect_of(alloc, second, decls, numbering)?;
            Ok(choice(alloc, condition, first, second, decls, numbering)?)
        }
        StmtKind::Case(_, expr, arms) => {
            let reads = reads_of(alloc, expr, decls, numbering)?;
            let arms = arms_effect(alloc, arms.as_slice(), decls, numbering)?;
            Ok(arms.behind(&reads)?)
        }
        StmtKind::Assign(target, kind, expr) => Ok(assign_effect(
            alloc, target, *kind, expr, decls, numbering,
        )?),
        StmtKind::Assume(expr) => {
            let reads = reads_of(alloc, expr, decls, numbering)?;
            Ok(Effect::none(alloc).behind(&reads)?)
        }
        StmtKind::Empty => Ok(Effect::none(alloc)),
    }
}

/// One after the other.
#[cycle(effect)]
fn sequence_effect(
    alloc: Global,
    all: &[Stmt],
    decls: &Decls,
    numbering: &Numbering,
) -> Result<Effect, Memory>
    requires { IsNumberingOf decls.now numbering.now }
    ensures { IfOk result (λ effect. StmtsAreSized decls.now (s.stmts all.now)
        → IsEffectOfAll decls.now effect all.now) }
{
    let mut effects = Vec::new(alloc);
    for part in all {
        let effect = effect_of(alloc, part, decls, numbering)?;
        push(&mut effects, effect)?;
    }
    Ok(in_sequence(alloc, effects.as_slice())?)
}

/// One of the arms, or none where there is no default.
#[cycle(effect)]
fn arms_effect(
    alloc: Global,
    all: &[Arm],
    decls: &Decls,
    numbering: &Numbering,
) -> Result<Effect, Memory>
    requires { IsNumberingOf decls.now numbering.now }
    ensures { IfOk result (λ effect. ArmsAreSized decls.now (arms all.now)
        → IsEffectOfArms decls.now effect (arms all.now)) }
{
    let mut effects = Vec::new(alloc);
    for arm in all {
        let effect = arm_effect(alloc, arm, decls, numbering)?;
        push(&mut effects, effect)?;
    }
    Ok(of_case(alloc, effects.as_slice(), has_default(all))?)
}

#[cycle(effect)]
fn arm_effect(
    alloc: Global,
    arm: &Arm,
    decls: &Decls,
    numbering: &Numbering,
) -> Result<Effect, Memory>
    requires { IsNumberingOf decls.now numbering.now }
    ensures { IfOk result (λ effect. ArmsAreSized decls.now (with_arm arm.now s.no_arms)
        → IsEffectOfArm decls.now effect arm.now) }
{
    match arm {
        Arm::Labels(_, labels, stmt) => {
            let reads = label_bits(alloc, labels.as_slice(), decls, numbering)?;
            let effect = effect_of(alloc, stmt, decls, numbering)?;
            Ok(effect.behind(&reads)?)
        }
        Arm::Default(_, _, stmt) => Ok(effect_of(alloc, stmt, decls, numbering)?),
    }
}
