//! Expressions with numbers in place of constants, as names mean them.
ghost use Rattle.std.specs.Prelude.{◌≡◌, false, IfOk, is_some};
ghost use Rattle.vl_tree.specs.Expr.{exprs};
ghost use Rattle.vl_tree.specs.ExprView.{selects, with_select};
ghost use Rattle.vl_tree.specs.Expr as tree;
ghost use Rattle.vl_mean.specs.Constants as spec;
ghost use Rattle.vl_elab_spec.specs.Expressions.{known};
ghost use Rattle.vl_elab_spec.specs.Meanings as meanings;

use crate::constants::{is_constant, whole_name};
use crate::names::Names;
use crate::tables::known_by_table;
use fv_text::{List, Memory, Pos, Text};
use std::alloc::Global;
use vl_tree::{Expr, ExprKind, Select};

/// The expression with the number of each constant in its place (IEEE 1364-2005, sections 3.11 and 12.4.1). A select
/// of a constant by constants is one number.
#[cycle(known)]
#[tactic(auto, using(vl_tree::specs::ExprFalls::parts_fall))]
pub fn known_expr(alloc: Global, expr: &Expr, names: &Names) -> Result<Expr, Memory>
    ensures { IfOk result (λ e. e ≡ known names.now expr.now) }
{
    let pos = expr.pos;
    match &expr.kind {
        ExprKind::Number(number) => Ok(Expr {
            pos,
            kind: ExprKind::Number(*number),
        }),
        ExprKind::Name(text, all) => match all.as_slice() {
            [] => whole_name(alloc, pos, text, names),
            [_, ..] => {
                if is_constant(names, text) {
                    known_by_table(alloc, expr, names)
                } else {
                    known_selected(alloc, pos, text, all.as_slice(), names)
                }
            }
        },
        ExprKind::Paren(inner) => {
            let inner = known_box(alloc, inner, names)?;
            Ok(Expr {
                pos,
                kind: ExprKind::Paren(inner),
            })
        }
        ExprKind::Unary(operator, operand) => {
            let operand = known_box(alloc, operand, names)?;
            Ok(Expr {
                pos,
                kind: ExprKind::Unary(*operator, operand),
            })
        }
        ExprKind::Binary(operator, left, right) => {
            let left = known_box(alloc, left, names)?;
            let right = known_box(alloc, right, names)?;
            Ok(Expr {
                pos,
                kind: ExprKind::Binary(*operator, left, right),
            })
        }
        ExprKind::Conditional(condition, first, second) => {
            let condition = known_box(alloc, condition, names)?;
            let first = known_box(alloc, first, names)?;
            let second = known_box(alloc, second, names)?;
            Ok(Expr {
                pos,
                kind: ExprKind::Conditional(condition, first, second),
            })
        }
        ExprKind::Concat(parts) => {
            let parts = known_parts(alloc, parts.as_slice(), names)?;
            Ok(Expr {
                pos,
                kind: ExprKind::Concat(parts),
            })
        }
        ExprKind::Repeat(count, parts) => {
            let count = known_box(alloc, count, names)?;
            let parts = known_parts(alloc, parts.as_slice(), names)?;
            Ok(Expr {
                pos,
                kind: ExprKind::Repeat(count, parts),
            })
        }
        ExprKind::Cast(cast, operand) => {
            let operand = known_box(alloc, operand, names)?;
            Ok(Expr {
                pos,
                kind: ExprKind::Cast(*cast, operand),
            })
        }
    }
}

#[cycle(known)]
fn known_box(alloc: Global, expr: &Expr, names: &Names) -> Result<Box<Expr>, Memory>
    ensures { IfOk result (λ e. e.value ≡ known names.now expr.now) }
{
    Ok(Box::new(alloc, known_expr(alloc, expr, names)?)?)
}

#[cycle(known)]
#[tactic(auto, using(vl_mean::proofs::Making::parts))]
fn known_parts(alloc: Global, all: &[Expr], names: &Names) -> Result<List<Expr>, Memory>
    ensures { IfOk result (λ es. exprs es ≡ spec.settled_exprs (meanings.constants names.now) (exprs all.now)) }
{
    let mut parts = List::new(alloc);
    for part in all {
        parts.push(known_expr(alloc, part, names)?)?;
    }
    Ok(parts)
}

/// A name that means no constant, with its selects.
#[cycle(known)]
fn known_selected(
    alloc: Global,
    pos: Pos,
    text: &Text,
    all: &[Select],
    names: &Names,
) -> Result<Expr, Memory>
    requires { is_some (meanings.constants names.now text.now) ≡ false }
    ensures { IfOk result (λ e. e ≡ known names.now (tree.name pos text.now (selects all.now))) }
{
    let name = text.copied(alloc)?;
    let mut parts = List::new(alloc);
    for select in all {
        parts.push(known_select(alloc, select, names)?)?;
    }
    Ok(Expr {
        pos,
        kind: ExprKind::Name(name, parts),
    })
}

#[cycle(known)]
fn known_select(alloc: Global, select: &Select, names: &Names) -> Result<Select, Memory>
    ensures { IfOk result (λ s. (rest : tree.Selects)
        → with_select s (spec.settled_selects (meanings.constants names.now) rest)
        ≡ spec.settled_selects (meanings.constants names.now) (with_select select.now rest)) }
{
    match select {
        Select::Bit(pos, index) => {
            let index = known_box(alloc, index, names)?;
            Ok(Select::Bit(*pos, index))
        }
        Select::Part(pos, left, right) => {
            let left = known_box(alloc, left, names)?;
            let right = known_box(alloc, right, names)?;
            Ok(Select::Part(*pos, left, right))
        }
        Select::Indexed(pos, start, width) => {
            let start = known_box(alloc, start, names)?;
            let width = known_box(alloc, width, names)?;
            Ok(Select::Indexed(*pos, start, width))
        }
    }
}
