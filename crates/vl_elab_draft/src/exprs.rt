//! Expressions and selects with full names, and with numbers in place of constants.
ghost use Rattle.std.specs.Prelude.{◌≡◌, false, IfOk, is_some};
ghost use Rattle.vl_tree.specs.Expr.{exprs, name, number, whole};
ghost use Rattle.vl_tree.specs.ExprView.{selects, with_select};
ghost use Rattle.vl_tree.specs.Expr as tree;
ghost use Rattle.vl_mean.specs.Constants as const_spec;
ghost use Rattle.vl_mean.specs.Scopes.{constant_in, full};
ghost use Rattle.vl_mean_flat.specs.FullNames as spec;

use crate::flat_constants::params_of;
use crate::names::renamed;
use crate::scopes::Scopes;
use fv_text::{List, Memory, Pos, Text};
use std::alloc::Global;
use vl_elab_scope::number_of;
use vl_mean::{Const, settled};
use vl_tree::{Expr, ExprKind, Select};

/// Whether the name means a constant.
fn is_constant(scopes: &Scopes, text: &Text) -> bool
    ensures { result ≡ is_some (constant_in scopes.now text.now) }
{
    scopes.constant(text).is_some()
}

fn numbered(pos: Pos, value: Const) -> Expr
    ensures { result ≡ number pos (const_spec.number_of value) }
{
    Expr {
        pos,
        kind: ExprKind::Number(number_of(value)),
    }
}

fn named(pos: Pos, text: Text, all: List<Select>) -> Expr
    ensures { result ≡ name pos text (selects all) }
{
    Expr {
        pos,
        kind: ExprKind::Name(text, all),
    }
}

/// A name without selects in full, or the number of the constant that it means.
#[tactic(auto, using(crate::proofs::Settling::whole_names))]
fn flat_name(alloc: Global, pos: Pos, text: &Text, scopes: &Scopes) -> Result<Expr, Memory>
    ensures { IfOk result (λ e. e ≡ spec.flat_expr scopes.now (name pos text.now whole)) }
{
    match scopes.constant(text) {
        None => {
            let name = scopes.full(alloc, text)?;
            Ok(named(pos, name, List::new(alloc)))
        }
        Some(value) => Ok(numbered(pos, *value)),
    }
}

/// The expression over a table of the constants that it names.
fn flat_by_table(alloc: Global, expr: &Expr, scopes: &Scopes) -> Result<Expr, Memory>
    ensures { IfOk result (λ e. e ≡ spec.flat_expr scopes.now expr.now) }
{
    let params = params_of(alloc, expr, scopes)?;
    let expr = settled(alloc, expr, &params)?;
    renamed(alloc, &expr, scopes)
}

/// The expression with the number of each constant in its place, and with each other name in full (IEEE 1364-2005,
/// sections 12.4.1 and 12.5). A select of a constant by constants is one number.
#[cycle(flat)]
#[tactic(auto, using(vl_tree::specs::ExprFalls::parts_fall))]
pub fn flat_expr(alloc: Global, expr: &Expr, scopes: &Scopes) -> Result<Expr, Memory>
    ensures { IfOk result (λ e. e ≡ spec.flat_expr scopes.now expr.now) }
{
    let pos = expr.pos;
    match &expr.kind {
        ExprKind::Number(number) => Ok(Expr {
            pos,
            kind: ExprKind::Number(*number),
        }),
        ExprKind::Name(text, all) => match all.as_slice() {
            [] => flat_name(alloc, pos, text, scopes),
            [_, ..] => {
                if is_constant(scopes, text) {
                    flat_by_table(alloc, expr, scopes)
                } else {
                    flat_selected(alloc, pos, text, all.as_slice(), scopes)
                }
            }
        },
        ExprKind::Paren(inner) => {
            let inner = flat_box(alloc, inner, scopes)?;
            Ok(Expr {
                pos,
                kind: ExprKind::Paren(inner),
            })
        }
        ExprKind::Unary(operator, operand) => {
            let operand = flat_box(alloc, operand, scopes)?;
            Ok(Expr {
                pos,
                kind: ExprKind::Unary(*operator, operand),
            })
        }
        ExprKind::Binary(operator, left, right) => {
            let left = flat_box(alloc, left, scopes)?;
            let right = flat_box(alloc, right, scopes)?;
            Ok(Expr {
                pos,
                kind: ExprKind::Binary(*operator, left, right),
            })
        }
        ExprKind::Conditional(condition, first, second) => {
            let condition = flat_box(alloc, condition, scopes)?;
            let first = flat_box(alloc, first, scopes)?;
            let second = flat_box(alloc, second, scopes)?;
            Ok(Expr {
                pos,
                kind: ExprKind::Conditional(condition, first, second),
            })
        }
        ExprKind::Concat(parts) => {
            let parts = flat_parts(alloc, parts.as_slice(), scopes)?;
            Ok(Expr {
                pos,
                kind: ExprKind::Concat(parts),
            })
        }
        ExprKind::Repeat(count, parts) => {
            let count = flat_box(alloc, count, scopes)?;
            let parts = flat_parts(alloc, parts.as_slice(), scopes)?;
            Ok(Expr {
                pos,
                kind: ExprKind::Repeat(count, parts),
            })
        }
        ExprKind::Cast(cast, operand) => {
            let operand = flat_box(alloc, operand, scopes)?;
            Ok(Expr {
                pos,
                kind: ExprKind::Cast(*cast, operand),
            })
        }
    }
}

#[cycle(flat)]
fn flat_box(alloc: Global, expr: &Expr, scopes: &Scopes) -> Result<Box<Expr>, Memory>
    ensures { IfOk result (λ e. e.value ≡ spec.flat_expr scopes.now expr.now) }
{
    Ok(Box::new(alloc, flat_expr(alloc, expr, scopes)?)?)
}

#[cycle(flat)]
fn flat_parts(alloc: Global, all: &[Expr], scopes: &Scopes) -> Result<List<Expr>, Memory>
    ensures { IfOk result (λ es. exprs es
        ≡ spec.renamed_exprs (full scopes.now) (const_spec.settled_exprs (constant_in scopes.now) (exprs all.now))) }
{
    let mut parts = List::new(alloc);
    for part in all {
        parts.push(flat_expr(alloc, part, scopes)?)?;
    }
    Ok(parts)
}

/// A name that means no constant, with its selects.
#[cycle(flat)]
fn flat_selected(
    alloc: Global,
    pos: Pos,
    text: &Text,
    all: &[Select],
    scopes: &Scopes,
) -> Result<Expr, Memory>
    requires { is_some (constant_in scopes.now text.now) ≡ false }
    ensures { IfOk result (λ e. e ≡ spec.flat_expr scopes.now (name pos text.now (selects all.now))) }
{
    let name = scopes.full(alloc, text)?;
    let mut parts = List::new(alloc);
    for select in all {
        parts.push(flat_select(alloc, select, scopes)?)?;
    }
    Ok(named(pos, name, parts))
}

#[cycle(flat)]
fn flat_select(alloc: Global, select: &Select, scopes: &Scopes) -> Result<Select, Memory>
    ensures { IfOk result (λ s. (rest : tree.Selects) → with_select s (spec.flat_selects scopes.now rest)
        ≡ spec.flat_selects scopes.now (with_select select.now rest)) }
{
    match select {
        Select::Bit(pos, index) => {
            let index = flat_box(alloc, index, scopes)?;
            Ok(Select::Bit(*pos, index))
        }
        Select::Part(pos, left, right) => {
            let left = flat_box(alloc, left, scopes)?;
            let right = flat_box(alloc, right, scopes)?;
            Ok(Select::Part(*pos, left, right))
        }
        Select::Indexed(pos, start, width) => {
            let start = flat_box(alloc, start, scopes)?;
            let width = flat_box(alloc, width, scopes)?;
            Ok(Select::Indexed(*pos, start, width))
        }
    }
}

/// The labels of an arm.
pub(crate) fn flat_exprs(alloc: Global, all: &[Expr], scopes: &Scopes) -> Result<List<Expr>, Memory>
    ensures { IfOk result (λ es. es ≡ spec.flat_exprs scopes.now all.now) }
{
    let mut parts = List::new(alloc);
    for part in all {
        parts.push(flat_expr(alloc, part, scopes)?)?;
    }
    Ok(parts)
}

/// The selects behind a target's name.
pub(crate) fn flat_selects(
    alloc: Global,
    all: &[Select],
    scopes: &Scopes,
) -> Result<List<Select>, Memory>
    ensures { IfOk result (λ ss. selects ss ≡ spec.flat_selects scopes.now (selects all.now)) }
{
    let mut parts = List::new(alloc);
    for select in all {
        parts.push(flat_select(alloc, select, scopes)?)?;
    }
    Ok(parts)
}
