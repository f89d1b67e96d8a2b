//! The nodes of statements, one behind the other.
ghost use Rattle.std.specs.Prelude.{◌≡◌};
ghost use Rattle.vl_tree.specs.Stmt.{stmts};
ghost use Rattle.vl_tree.specs.Stmt as tree;
ghost use Rattle.vl_tree.specs.StmtView.{arms, with_arm};
ghost use Rattle.vl_elab_places.specs.Passing as spec;

use crate::cursor::Cursor;
use crate::exprs::{pass_expr, pass_target};
use vl_tree::{Arm, Expr, Stmt, StmtKind};

/// Behind a statement.
#[cycle(nodes)]
#[tactic(auto, using(vl_tree::specs::StmtFalls::parts_fall, crate::proofs::Lists::depths))]
pub(crate) fn pass_stmt(stmt: &Stmt, start: Cursor) -> Cursor
    ensures { result ≡ spec.stmt_passed stmt.now start }
{
    let at = start.moved(1, stmt.pos);
    match &stmt.kind {
        StmtKind::Begin(_, all) => pass_stmts(all.as_slice(), at),
        StmtKind::If(condition, first, None) => {
            let behind = pass_expr(condition, at);
            pass_stmt(first, behind)
        }
        StmtKind::If(condition, first, Some(second)) => {
            let behind = pass_expr(condition, at);
            let between = pass_stmt(first, behind);
            pass_stmt(second, between)
        }
        StmtKind::Case(_, expr, all) => {
            let behind = pass_expr(expr, at);
            pass_arms(all.as_slice(), behind)
        }
        StmtKind::Assign(target, _, value) => {
            let behind = pass_target(target, at);
            pass_expr(value, behind)
        }
        StmtKind::Assume(expr) => pass_expr(expr, at),
        StmtKind::Empty => at,
    }
}

#[cycle(nodes)]
#[tactic(auto, using(crate::proofs::Lists::depths))]
fn pass_stmts(all: &[Stmt], start: Cursor) -> Cursor
    ensures { result ≡ spec.stmts_passed (stmts all.now) start }
{
    let mut at = start;
    for stmt in all {
        at = pass_stmt(stmt, at);
    }
    at
}

#[cycle(nodes)]
#[tactic(auto, using(crate::proofs::Lists::depths))]
fn pass_arms(all: &[Arm], start: Cursor) -> Cursor
    ensures { result ≡ spec.arms_passed (arms all.now) start }
{
    let mut at = start;
    for arm in all {
        at = pass_arm(arm, at);
    }
    at
}

#[cycle(nodes)]
#[tactic(auto, using(crate::proofs::Lists::depths))]
fn pass_arm(arm: &Arm, start: Cursor) -> Cursor
    ensures { (rest : tree.Arms) → spec.arms_passed (with_arm arm.now rest) start ≡ spec.arms_passed rest result }
{
    match arm {
        Arm::Labels(_, labels, stmt) => {
            let behind = pass_labels(labels.as_slice(), start);
            pass_stmt(stmt, behind)
        }
        Arm::Default(_, _, stmt) => pass_stmt(stmt, start),
    }
}

fn pass_labels(all: &[Expr], start: Cursor) -> Cursor
    ensures { result ≡ spec.labels_passed all.now start }
{
    let mut at = start;
    for label in all {
        at = pass_expr(label, at);
    }
    at
}
