//! Expressions with full names.
ghost use Rattle.std.specs.Prelude.{◌≡◌, IfOk};
ghost use Rattle.vl_tree.specs.Expr.{exprs};
ghost use Rattle.vl_tree.specs.ExprView.{selects, with_select};
ghost use Rattle.vl_tree.specs.Expr as tree;
ghost use Rattle.vl_mean.specs.Scopes.{full};
ghost use Rattle.vl_mean_flat.specs.FullNames as spec;

use crate::scopes::Scopes;
use fv_text::{List, Memory};
use std::alloc::Global;
use vl_tree::{Expr, ExprKind, Select};

/// The expression with each name in full.
#[cycle(renamed)]
#[tactic(auto, using(vl_tree::specs::ExprFalls::parts_fall))]
pub(crate) fn renamed(alloc: Global, expr: &Expr, scopes: &Scopes) -> Result<Expr, Memory>
    ensures { IfOk result (λ e. e ≡ spec.renamed (full scopes.now) expr.now) }
{
    let pos = expr.pos;
    let kind = match &expr.kind {
        ExprKind::Number(number) => ExprKind::Number(*number),
        ExprKind::Name(text, all) => {
            let name = scopes.full(alloc, text)?;
            let selects = renamed_selects(alloc, all.as_slice(), scopes)?;
            ExprKind::Name(name, selects)
        }
        ExprKind::Paren(inner) => ExprKind::Paren(renamed_box(alloc, inner, scopes)?),
        ExprKind::Unary(operator, operand) => {
            ExprKind::Unary(*operator, renamed_box(alloc, operand, scopes)?)
        }
        ExprKind::Binary(operator, left, right) => {
            let left = renamed_box(alloc, left, scopes)?;
            let right = renamed_box(alloc, right, scopes)?;
            ExprKind::Binary(*operator, left, right)
        }
        ExprKind::Conditional(condition, first, second) => {
            let condition = renamed_box(alloc, condition, scopes)?;
            let first = renamed_box(alloc, first, scopes)?;
            let second = renamed_box(alloc, second, scopes)?;
            ExprKind::Conditional(condition, first, second)
        }
        ExprKind::Concat(parts) => ExprKind::Concat(renamed_parts(
            alloc,
            parts.as_slice(),
            scopes,
        )?),
        ExprKind::Repeat(count, parts) => {
            let count = renamed_box(alloc, count, scopes)?;
            let parts = renamed_parts(alloc, parts.as_slice(), scopes)?;
            ExprKind::Repeat(count, parts)
        }
        ExprKind::Cast(cast, operand) => {
            ExprKind::Cast(*cast, renamed_box(alloc, operand, scopes)?)
        }
    };
    Ok(Expr { pos, kind })
}

#[cycle(renamed)]
fn renamed_box(alloc: Global, expr: &Expr, scopes: &Scopes) -> Result<Box<Expr>, Memory>
    ensures { IfOk result (λ e. e.value ≡ spec.renamed (full scopes.now) expr.now) }
{
    Ok(Box::new(alloc, renamed(alloc, expr, scopes)?)?)
}

#[cycle(renamed)]
fn renamed_parts(alloc: Global, all: &[Expr], scopes: &Scopes) -> Result<List<Expr>, Memory>
    ensures { IfOk result (λ es. exprs es ≡ spec.renamed_exprs (full scopes.now) (exprs all.now)) }
{
    let mut parts = List::new(alloc);
    for part in all {
        parts.push(renamed(alloc, part, scopes)?)?;
    }
    Ok(parts)
}

#[cycle(renamed)]
fn renamed_selects(alloc: Global, all: &[Select], scopes: &Scopes) -> Result<List<Select>, Memory>
    ensures { IfOk result (λ ss. selects ss ≡ spec.renamed_selects (full scopes.now) (selects all.now)) }
{
    let mut parts = List::new(alloc);
    for select in all {
        parts.push(renamed_select(alloc, select, scopes)?)?;
    }
    Ok(parts)
}

#[cycle(renamed)]
fn renamed_select(alloc: Global, select: &Select, scopes: &Scopes) -> Result<Select, Memory>
    ensures { IfOk result (λ s. (rest : tree.Selects)
        → with_select s (spec.renamed_selects (full scopes.now) rest)
        ≡ spec.renamed_selects (full scopes.now) (with_select select.now rest)) }
{
    match select {
        Select::Bit(pos, index) => {
            let index = renamed_box(alloc, index, scopes)?;
            Ok(Select::Bit(*pos, index))
        }
        Select::Part(pos, left, right) => {
            let left = renamed_box(alloc, left, scopes)?;
            let right = renamed_box(alloc, right, scopes)?;
            Ok(Select::Part(*pos, left, right))
        }
        Select::Indexed(pos, start, width) => {
            let start = renamed_box(alloc, start, scopes)?;
            let width = renamed_box(alloc, width, scopes)?;
            Ok(Select::Indexed(*pos, start, width))
        }
    }
}
