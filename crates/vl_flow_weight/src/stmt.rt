ghost use Rattle.std.specs.Prelude.{IfOk};
ghost use Rattle.vl_flow_spec.specs.Assigned as assigns;
ghost use Rattle.vl_flow_spec.specs.Paths.{any_kind};
ghost use Rattle.vl_flow_spec.specs.Weight as spec;
ghost use Rattle.vl_tree.specs.Stmt as s;
ghost use Rattle.vl_tree.specs.StmtView.{arms, with_arm};
ghost use Rattle.vl_flow_weight.specs.Branches.{IsBranchOf};

use crate::assigned::assigned_weight;
use crate::branch::Branch;
use crate::expr::weigh;
use crate::labels::{arms_bits, labels_weight};
use crate::names::push;
use crate::weighed::bits_of;
use fv_text::Memory;
use std::alloc::Global;
use vl_flow_order::{target_names, union_of};
use vl_mean::Env;
use vl_mean::widths::plus;
use vl_size::Decls;
use vl_tree::{Arm, Expr, Lval, Stmt, StmtKind};

fn assign_branch(
    alloc: Global,
    target: &Lval,
    expr: &Expr,
    decls: &Decls,
    bare: &Env,
) -> Result<Branch, Memory>
    ensures { IfOk result (IsBranchOf decls.now (spec.assigned_weight decls.now target.now expr.now)
        (assigns.target_names target.now)) }
{
    let weight = assigned_weight(target, expr, decls, bare);
    let names = target_names(alloc, target, decls)?;
    Ok(Branch { weight, names })
}

/// What a statement weighs, and which names it assigns. Time is about linear in it.
#[cycle(branch)]
#[tactic(auto, using(vl_tree::specs::StmtFalls::parts_fall))]
pub(crate) fn stmt_branch(
    alloc: Global,
    stmt: &Stmt,
    decls: &Decls,
    bare: &Env,
) -> Result<Branch, Memory>
    ensures { IfOk result (IsBranchOf decls.now (spec.stmt_weight decls.now stmt.now)
        (assigns.assigned_names any_kind stmt.now)) }
{
    match &stmt.kind {
        StmtKind::Begin(_, all) => Ok(sequence_branch(alloc, all.as_slice(), decls, bare)?),
        StmtKind::If(condition, first, None) => {
            let test = weigh(condition, decls).own();
            let first = stmt_branch(alloc, first, decls, bare)?;
            Ok(first.merged(test, decls))
        }
        StmtKind::If(condition, first, Some(second)) => {
            let test = weigh(condition, decls).own();
            let first = stmt_branch(alloc, first, decls, bare)?;
            let second = stmt_branch(alloc, second, decls, bare)?;
            Ok(first.with(&second)?.merged(test, decls))
        }
        StmtKind::Case(_, expr, arms) => {
            let tested = weigh(expr, decls);
            let bits = bits_of(tested.size).max(arms_bits(arms.as_slice(), decls));
            let arms = arms_branch(alloc, arms.as_slice(), bits, decls, bare)?;
            Ok(arms.merged(tested.at(bits), decls))
        }
        StmtKind::Assign(target, _, expr) => Ok(assign_branch(alloc, target, expr, decls, bare)?),
        StmtKind::Assume(expr) => {
            let weight = weigh(expr, decls).own();
            Ok(Branch::without_names(alloc, weight))
        }
        StmtKind::Empty => Ok(Branch::without_names(alloc, 0)),
    }
}

/// All of them together.
#[cycle(branch)]
fn sequence_branch(alloc: Global, all: &[Stmt], decls: &Decls, bare: &Env) -> Result<Branch, Memory>
    ensures { IfOk result (IsBranchOf decls.now (spec.stmts_weight decls.now (s.stmts all.now))
        (assigns.all_assigned_names any_kind (s.stmts all.now))) }
{
    let mut weight = 0;
    let mut sets = Vec::new(alloc);
    for part in all {
        let branch = stmt_branch(alloc, part, decls, bare)?;
        weight = plus(weight, branch.weight);
        push(&mut sets, branch.names)?;
    }
    let names = union_of(alloc, sets.as_slice())?;
    Ok(Branch { weight, names })
}

/// All arms together, whose labels are evaluated with so many bits.
#[cycle(branch)]
fn arms_branch(
    alloc: Global,
    all: &[Arm],
    bits: u64,
    decls: &Decls,
    bare: &Env,
) -> Result<Branch, Memory>
    ensures { IfOk result (IsBranchOf decls.now (spec.arms_weight decls.now bits (arms all.now))
        (assigns.arms_assigned_names any_kind (arms all.now))) }
{
    let mut weight = 0;
    let mut sets = Vec::new(alloc);
    for arm in all {
        let branch = arm_branch(alloc, arm, bits, decls, bare)?;
        weight = plus(weight, branch.weight);
        push(&mut sets, branch.names)?;
    }
    let names = union_of(alloc, sets.as_slice())?;
    Ok(Branch { weight, names })
}

#[cycle(branch)]
fn arm_branch(
    alloc: Global,
    arm: &Arm,
    bits: u64,
    decls: &Decls,
    bare: &Env,
) -> Result<Branch, Memory>
    ensures { IfOk result (IsBranchOf decls.now (spec.arms_weight decls.now bits (with_arm arm.now s.no_arms))
        (assigns.arms_assigned_names any_kind (with_arm arm.now s.no_arms))) }
{
    match arm {
        Arm::Labels(_, labels, stmt) => {
            let tests = labels_weight(labels.as_slice(), bits, decls);
            let branch = stmt_branch(alloc, stmt, decls, bare)?;
            Ok(branch.behind(tests))
        }
        Arm::Default(_, _, stmt) => Ok(stmt_branch(alloc, stmt, decls, bare)?),
    }
}
