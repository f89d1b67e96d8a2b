//! Statements with full names, and with numbers in place of constants.
ghost use Rattle.std.specs.Prelude.{◌≡◌, IfOk};
ghost use Rattle.vl_tree.specs.Stmt.{stmts};
ghost use Rattle.vl_tree.specs.StmtView.{arms, with_arm};
ghost use Rattle.vl_tree.specs.Stmt as tree;
ghost use Rattle.vl_mean_flat.specs.FullNames as spec;

use crate::attributes::{copied_attributes, copied_label};
use crate::exprs::{flat_expr, flat_exprs};
use crate::scopes::Scopes;
use crate::targets::flat_lval;
use fv_text::{List, Memory};
use std::alloc::Global;
use vl_tree::{Arm, Stmt, StmtKind};

/// The statement with each name in full, and with the number of each constant in its place (IEEE 1364-2005, sections
/// 12.4.1 and 12.5). Attributes and labels stay as they are.
#[cycle(stmt)]
#[tactic(auto, using(vl_tree::specs::StmtFalls::parts_fall))]
pub fn flat_stmt(alloc: Global, stmt: &Stmt, scopes: &Scopes) -> Result<Stmt, Memory>
    ensures { IfOk result (λ s. s ≡ spec.flat_stmt scopes.now stmt.now) }
{
    let attributes = copied_attributes(alloc, stmt.attributes.as_slice())?;
    let kind = match &stmt.kind {
        StmtKind::Begin(label, all) => {
            let label = copied_label(alloc, label)?;
            StmtKind::Begin(label, flat_stmts(alloc, all.as_slice(), scopes)?)
        }
        StmtKind::If(condition, first, None) => {
            let condition = flat_expr(alloc, condition, scopes)?;
            StmtKind::If(condition, flat_box(alloc, first, scopes)?, None)
        }
        StmtKind::If(condition, first, Some(second)) => {
            let condition = flat_expr(alloc, condition, scopes)?;
            let first = flat_box(alloc, first, scopes)?;
            StmtKind::If(condition, first, Some(flat_box(alloc, second, scopes)?))
        }
        StmtKind::Case(kind, expr, all) => {
            let expr = flat_expr(alloc, expr, scopes)?;
            StmtKind::Case(*kind, expr, flat_arms(alloc, all.as_slice(), scopes)?)
        }
        StmtKind::Assign(target, kind, value) => {
            let target = flat_lval(alloc, target, scopes)?;
            StmtKind::Assign(target, *kind, flat_expr(alloc, value, scopes)?)
        }
        StmtKind::Assume(expr) => StmtKind::Assume(flat_expr(alloc, expr, scopes)?),
        StmtKind::Empty => StmtKind::Empty,
    };
    Ok(Stmt {
        attributes,
        pos: stmt.pos,
        kind,
    })
}

#[cycle(stmt)]
fn flat_box(alloc: Global, stmt: &Stmt, scopes: &Scopes) -> Result<Box<Stmt>, Memory>
    ensures { IfOk result (λ s. s.value ≡ spec.flat_stmt scopes.now stmt.now) }
{
    Ok(Box::new(alloc, flat_stmt(alloc, stmt, scopes)?)?)
}

#[cycle(stmt)]
fn flat_stmts(alloc: Global, all: &[Stmt], scopes: &Scopes) -> Result<List<Stmt>, Memory>
    ensures { IfOk result (λ ss. stmts ss ≡ spec.flat_stmts scopes.now (stmts all.now)) }
{
    let mut parts = List::new(alloc);
    for stmt in all {
        parts.push(flat_stmt(alloc, stmt, scopes)?)?;
    }
    Ok(parts)
}

#[cycle(stmt)]
fn flat_arms(alloc: Global, all: &[Arm], scopes: &Scopes) -> Result<List<Arm>, Memory>
    ensures { IfOk result (λ xs. arms xs ≡ spec.flat_arms scopes.now (arms all.now)) }
{
    let mut parts = List::new(alloc);
    for arm in all {
        parts.push(flat_arm(alloc, arm, scopes)?)?;
    }
    Ok(parts)
}

#[cycle(stmt)]
fn flat_arm(alloc: Global, arm: &Arm, scopes: &Scopes) -> Result<Arm, Memory>
    ensures { IfOk result (λ a. (rest : tree.Arms) → with_arm a (spec.flat_arms scopes.now rest)
        ≡ spec.flat_arms scopes.now (with_arm arm.now rest)) }
{
    match arm {
        Arm::Labels(pos, labels, stmt) => {
            let labels = flat_exprs(alloc, labels.as_slice(), scopes)?;
            let stmt = flat_box(alloc, stmt, scopes)?;
            Ok(Arm::Labels(*pos, labels, stmt))
        }
        Arm::Default(pos, colon, stmt) => {
            let stmt = flat_box(alloc, stmt, scopes)?;
            Ok(Arm::Default(*pos, *colon, stmt))
        }
    }
}
