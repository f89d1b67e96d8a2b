//! Nodes of statements.
ghost use Rattle.std.specs.Prelude.{◌≡◌, ◌+◌};
ghost use Rattle.vl_tree.specs.Stmt.{stmts};
ghost use Rattle.vl_tree.specs.StmtView.{arms};
ghost use Rattle.vl_mean.specs.ConstantFaults.{capped};
ghost use Rattle.vl_mean.specs.FlatLaw as flat;
ghost use Rattle.vl_elab_count.specs.Parts as spec;

use crate::exprs::{expr_nodes, target_nodes};
use vl_mean::widths::plus;
use vl_tree::{Arm, Expr, Stmt, StmtKind};

/// A statement: one for each statement in it, and its targets and expressions.
#[cycle(nodes)]
#[tactic(auto, using(vl_tree::specs::StmtFalls::parts_fall, crate::proofs::CountSums::sums))]
pub fn stmt_nodes(stmt: &Stmt) -> u64
    ensures { result ≡ capped (flat.stmt_nodes stmt.now) }
{
    match &stmt.kind {
        StmtKind::Begin(_, all) => plus(stmts_nodes(all.as_slice()), 1),
        StmtKind::If(condition, first, None) => {
            let condition = expr_nodes(condition);
            let first = stmt_nodes(first);
            plus(plus(condition, first), 1)
        }
        StmtKind::If(condition, first, Some(second)) => {
            let condition = expr_nodes(condition);
            let first = stmt_nodes(first);
            let second = stmt_nodes(second);
            plus(plus(plus(condition, first), second), 1)
        }
        StmtKind::Case(_, expr, all) => {
            let expr = expr_nodes(expr);
            let inner = arms_nodes(all.as_slice());
            plus(plus(expr, inner), 1)
        }
        StmtKind::Assign(target, _, value) => {
            let target = target_nodes(target);
            let value = expr_nodes(value);
            plus(plus(target, value), 1)
        }
        StmtKind::Assume(expr) => plus(expr_nodes(expr), 1),
        StmtKind::Empty => 1,
    }
}

#[cycle(nodes)]
#[tactic(auto, using(crate::proofs::InLists::list_steps, crate::proofs::CountSums::sums))]
fn stmts_nodes(all: &[Stmt]) -> u64
    ensures { result ≡ capped (flat.all_stmt_nodes (stmts all.now)) }
{
    let mut total = 0;
    let mut place = all.len();
    while place > 0 {
        place -= 1;
        let here = stmt_nodes(&all[place]);
        total = plus(here, total);
    }
    total
}

#[cycle(nodes)]
#[tactic(auto, using(crate::proofs::InLists::list_steps, crate::proofs::CountSums::sums))]
fn arms_nodes(all: &[Arm]) -> u64
    ensures { result ≡ capped (flat.arm_nodes (arms all.now)) }
{
    let mut total = 0;
    let mut place = all.len();
    while place > 0 {
        place -= 1;
        let here = arm_nodes(&all[place]);
        total = plus(here, total);
    }
    total
}

#[cycle(nodes)]
#[tactic(auto, using(crate::proofs::CountSums::sums))]
fn arm_nodes(arm: &Arm) -> u64
    ensures { result ≡ capped (spec.arm_nodes arm.now) }
{
    match arm {
        Arm::Labels(_, labels, stmt) => {
            let labels = labels_nodes(labels.as_slice());
            let stmt = stmt_nodes(stmt);
            plus(labels, stmt)
        }
        Arm::Default(_, _, stmt) => stmt_nodes(stmt),
    }
}

#[tactic(auto, using(crate::proofs::CountSums::sums))]
fn labels_nodes(all: &[Expr]) -> u64
    ensures { result ≡ capped (flat.label_nodes all.now) }
{
    let mut total = 0;
    let mut place = all.len();
    while place > 0 {
        place -= 1;
        let here = expr_nodes(&all[place]);
        total = plus(here, total);
    }
    total
}
