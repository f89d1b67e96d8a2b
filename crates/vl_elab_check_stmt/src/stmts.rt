//! Where statements are refused.
ghost use Rattle.std.specs.Prelude.{◌≡◌, ◌≤◌, true, false, IfOk, IfSome};
ghost use Rattle.vl_tree.specs.Stmt.{stmts};
ghost use Rattle.vl_tree.specs.StmtView.{arms};
ghost use Rattle.vl_elab_spec.specs.Refused.{lower_of, lowest};
ghost use Rattle.vl_elab_spec.specs.Statements as spec;
ghost use Rattle.vl_elab_check_stmt.specs.Parts as parts;

use crate::contexts::case_context;
use crate::targets::{Assigning, assignment_fault};
use fv_text::Memory;
use std::alloc::Global;
use vl_elab_check_expr::{expr_fault_in, first_of, own_fault};
use vl_elab_scope::Names;
use vl_elab_spec::ElabFault;
use vl_size::Context;
use vl_tree::{Arm, Expr, Lval, Stmt, StmtKind};

/// An assignment of a block.
fn block_assignment(
    alloc: Global,
    target: &Lval,
    value: &Expr,
    names: &Names,
) -> Result<Option<ElabFault>, Memory>
    ensures { IfOk result (λ g. g
        ≡ lowest (spec.assignment_refusals names.now false false false target.now value.now)) }
{
    let how = Assigning {
        continuous: false,
        fixed_target: false,
        fixed_value: false,
    };
    assignment_fault(alloc, target, value, how, names)
}

/// An `initial` block gives constants, by constant indices.
fn initial_assignment(
    alloc: Global,
    target: &Lval,
    value: &Expr,
    names: &Names,
) -> Result<Option<ElabFault>, Memory>
    ensures { IfOk result (λ g. g
        ≡ lowest (spec.assignment_refusals names.now false true true target.now value.now)) }
{
    let how = Assigning {
        continuous: false,
        fixed_target: true,
        fixed_value: true,
    };
    assignment_fault(alloc, target, value, how, names)
}

#[tactic(auto, using(crate::proofs::Statements::list_steps))]
fn labels_fault(
    alloc: Global,
    context: Context,
    all: &[Expr],
    names: &Names,
) -> Result<Option<ElabFault>, Memory>
    requires { IfSome context.size (λ w. w ≤ 128) }
    ensures { IfOk result (λ g. g ≡ parts.labels_fault names.now context all.now) }
{
    let mut fault = None;
    let mut place = all.len();
    while place > 0 {
        place -= 1;
        let found = expr_fault_in(alloc, &all[place], false, context, names)?;
        fault = first_of(found, fault);
    }
    Ok(fault)
}

#[cycle(statement)]
#[tactic(auto, using(vl_tree::specs::StmtFalls::parts_fall))]
fn judge_stmt(alloc: Global, stmt: &Stmt, names: &Names) -> Result<Option<ElabFault>, Memory>
    ensures { IfOk result (λ g. g ≡ parts.stmt_fault names.now stmt.now) }
{
    match &stmt.kind {
        StmtKind::Begin(_, all) => judge_stmts(alloc, all.as_slice(), names),
        StmtKind::If(condition, first, None) => {
            let own = own_fault(alloc, condition, false, names)?;
            stmt_behind(alloc, own, first, names)
        }
        StmtKind::If(condition, first, Some(second)) => {
            let own = own_fault(alloc, condition, false, names)?;
            let inner = stmt_behind(alloc, own, first, names)?;
            stmt_behind(alloc, inner, second, names)
        }
        StmtKind::Case(_, expr, all) => {
            let context = case_context(alloc, expr, all.as_slice(), names)?;
            let own = expr_fault_in(alloc, expr, false, context, names)?;
            let inner = judge_arms(alloc, context, all.as_slice(), names)?;
            Ok(first_of(own, inner))
        }
        StmtKind::Assign(target, _, value) => block_assignment(alloc, target, value, names),
        StmtKind::Assume(expr) => own_fault(alloc, expr, false, names),
        StmtKind::Empty => Ok(None),
    }
}

/// A statement behind others with such a refusal.
#[cycle(statement)]
fn stmt_behind(
    alloc: Global,
    before: Option<ElabFault>,
    stmt: &Stmt,
    names: &Names,
) -> Result<Option<ElabFault>, Memory>
    ensures { IfOk result (λ g. g ≡ lower_of before (parts.stmt_fault names.now stmt.now)) }
{
    let found = judge_stmt(alloc, stmt, names)?;
    Ok(first_of(before, found))
}

#[cycle(statement)]
#[tactic(auto, using(crate::proofs::Statements::list_steps))]
fn judge_stmts(alloc: Global, all: &[Stmt], names: &Names) -> Result<Option<ElabFault>, Memory>
    ensures { IfOk result (λ g. g ≡ parts.stmts_fault names.now (stmts all.now)) }
{
    let mut fault = None;
    let mut place = all.len();
    while place > 0 {
        place -= 1;
        let found = judge_stmt(alloc, &all[place], names)?;
        fault = first_of(found, fault);
    }
    Ok(fault)
}

#[cycle(statement)]
#[tactic(auto, using(crate::proofs::Statements::list_steps))]
fn judge_arms(
    alloc: Global,
    context: Context,
    all: &[Arm],
    names: &Names,
) -> Result<Option<ElabFault>, Memory>
    requires { IfSome context.size (λ w. w ≤ 128) }
    ensures { IfOk result (λ g. g ≡ parts.arms_fault names.now context (arms all.now)) }
{
    let mut fault = None;
    let mut place = all.len();
    while place > 0 {
        place -= 1;
        let found = judge_arm(alloc, context, &all[place], names)?;
        fault = first_of(found, fault);
    }
    Ok(fault)
}

#[cycle(statement)]
fn judge_arm(
    alloc: Global,
    context: Context,
    arm: &Arm,
    names: &Names,
) -> Result<Option<ElabFault>, Memory>
    requires { IfSome context.size (λ w. w ≤ 128) }
    ensures { IfOk result (λ g. g ≡ parts.arm_fault names.now context arm.now) }
{
    match arm {
        Arm::Labels(_, labels, stmt) => {
            let own = labels_fault(alloc, context, labels.as_slice(), names)?;
            stmt_behind(alloc, own, stmt, names)
        }
        Arm::Default(_, _, stmt) => judge_stmt(alloc, stmt, names),
    }
}

/// Of all refusals of a statement the one with the lowest number, and of one number the one at the earliest place.
/// None exactly where it isn't refused.
#[tactic(auto, using(crate::proofs::Statements::same_stmt))]
pub fn stmt_fault(alloc: Global, stmt: &Stmt, names: &Names) -> Result<Option<ElabFault>, Memory>
    ensures { IfOk result (λ g. g ≡ lowest (spec.stmt_refusals names.now stmt.now)) }
{
    judge_stmt(alloc, stmt, names)
}

#[cycle(initial)]
#[tactic(auto, using(vl_tree::specs::StmtFalls::parts_fall))]
fn judge_initial(alloc: Global, stmt: &Stmt, names: &Names) -> Result<Option<ElabFault>, Memory>
    ensures { IfOk result (λ g. g ≡ parts.initial_fault names.now stmt.now) }
{
    match &stmt.kind {
        StmtKind::Begin(_, all) => judge_initials(alloc, all.as_slice(), names),
        StmtKind::Assign(target, _, value) => initial_assignment(alloc, target, value, names),
        StmtKind::If(_, _, None) | StmtKind::If(_, _, Some(_)) => Ok(None),
        StmtKind::Case(_, _, _) | StmtKind::Assume(_) | StmtKind::Empty => Ok(None),
    }
}

#[cycle(initial)]
#[tactic(auto, using(crate::proofs::Statements::list_steps))]
fn judge_initials(alloc: Global, all: &[Stmt], names: &Names) -> Result<Option<ElabFault>, Memory>
    ensures { IfOk result (λ g. g ≡ parts.all_initial_fault names.now (stmts all.now)) }
{
    let mut fault = None;
    let mut place = all.len();
    while place > 0 {
        place -= 1;
        let found = judge_initial(alloc, &all[place], names)?;
        fault = first_of(found, fault);
    }
    Ok(fault)
}

/// The same of the statement of an `initial` block, whose assignments give constants, by constant indices.
#[tactic(auto, using(crate::proofs::Statements::same_initial))]
pub fn initial_fault(alloc: Global, stmt: &Stmt, names: &Names) -> Result<Option<ElabFault>, Memory>
    ensures { IfOk result (λ g. g ≡ lowest (spec.initial_refusals names.now stmt.now)) }
{
    judge_initial(alloc, stmt, names)
}
