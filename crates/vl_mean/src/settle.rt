//! Expressions with numbers in place of constants.
ghost use Rattle.std.specs.Prelude.{◌≡◌, IfOk, ◌∷◌, [], Some, None, false};
ghost use Rattle.vl_tree.specs.Expr.{exprs};
ghost use Rattle.vl_tree.specs.ExprView.{selects, with_select};
ghost use Rattle.vl_tree.specs.Expr as tree;
ghost use Rattle.vl_mean.specs.Constants as spec;
ghost use Rattle.vl_mean.specs.Env.{values_of};
ghost use Rattle.vl_mean.specs.Params.{constant};

use crate::const_number::Const;
use crate::env::Env;
use crate::evaluate::value as value_of;
use crate::params::Params;
use fv_text::{List, Memory, Number, Pos, Text};
use std::alloc::Global;
use vl_size::{Class, Decl, Decls, size_of};
use vl_tree::{Expr, ExprKind, Select};

/// The expression with the number of each constant in its place (IEEE 1364-2005, sections 3.11 and 12.4.1). A select
/// of a constant by constants is one number.
#[cycle(settled)]
#[tactic(auto, using(vl_tree::specs::ExprFalls::parts_fall))]
pub fn settled(alloc: Global, expr: &Expr, params: &Params) -> Result<Expr, Memory>
    ensures { IfOk result (λ e. e ≡ spec.settled (constant params.now) expr.now) }
{
    let pos = expr.pos;
    match &expr.kind {
        ExprKind::Number(number) => Ok(Expr {
            pos,
            kind: ExprKind::Number(*number),
        }),
        ExprKind::Name(text, all) => {
            let selects = settled_selects(alloc, all.as_slice(), params)?;
            settled_name(alloc, pos, text, selects, params)
        }
        ExprKind::Paren(inner) => {
            let inner = settled_box(alloc, inner, params)?;
            Ok(Expr {
                pos,
                kind: ExprKind::Paren(inner),
            })
        }
        ExprKind::Unary(operator, operand) => {
            let operand = settled_box(alloc, operand, params)?;
            Ok(Expr {
                pos,
                kind: ExprKind::Unary(*operator, operand),
            })
        }
        ExprKind::Binary(operator, left, right) => {
            let left = settled_box(alloc, left, params)?;
            let right = settled_box(alloc, right, params)?;
            Ok(Expr {
                pos,
                kind: ExprKind::Binary(*operator, left, right),
            })
        }
        ExprKind::Conditional(condition, first, second) => {
            let condition = settled_box(alloc, condition, params)?;
            let first = settled_box(alloc, first, params)?;
            let second = settled_box(alloc, second, params)?;
            Ok(Expr {
                pos,
                kind: ExprKind::Conditional(condition, first, second),
            })
        }
        ExprKind::Concat(parts) => {
            let parts = settled_parts(alloc, parts.as_slice(), params)?;
            Ok(Expr {
                pos,
                kind: ExprKind::Concat(parts),
            })
        }
        ExprKind::Repeat(count, parts) => {
            let count = settled_box(alloc, count, params)?;
            let parts = settled_parts(alloc, parts.as_slice(), params)?;
            Ok(Expr {
                pos,
                kind: ExprKind::Repeat(count, parts),
            })
        }
        ExprKind::Cast(cast, operand) => {
            let operand = settled_box(alloc, operand, params)?;
            Ok(Expr {
                pos,
                kind: ExprKind::Cast(*cast, operand),
            })
        }
    }
}

#[cycle(settled)]
fn settled_box(alloc: Global, expr: &Expr, params: &Params) -> Result<Box<Expr>, Memory>
    ensures { IfOk result (λ e. e.value ≡ spec.settled (constant params.now) expr.now) }
{
    Ok(Box::new(alloc, settled(alloc, expr, params)?)?)
}

#[cycle(settled)]
#[tactic(auto, using(crate::proofs::Making::parts))]
fn settled_parts(alloc: Global, all: &[Expr], params: &Params) -> Result<List<Expr>, Memory>
    ensures { IfOk result (λ es. exprs es ≡ spec.settled_exprs (constant params.now) (exprs all.now)) }
{
    let mut parts = List::new(alloc);
    for part in all {
        parts.push(settled(alloc, part, params)?)?;
    }
    Ok(parts)
}

#[cycle(settled)]
#[tactic(auto, using(crate::proofs::Making::parts))]
fn settled_selects(alloc: Global, all: &[Select], params: &Params) -> Result<List<Select>, Memory>
    ensures { IfOk result (λ ss. selects ss ≡ spec.settled_selects (constant params.now) (selects all.now)) }
{
    let mut parts = List::new(alloc);
    for select in all {
        parts.push(settled_select(alloc, select, params)?)?;
    }
    Ok(parts)
}

#[cycle(settled)]
fn settled_select(alloc: Global, select: &Select, params: &Params) -> Result<Select, Memory>
    ensures { IfOk result (λ s. (rest : tree.Selects)
        → with_select s (spec.settled_selects (constant params.now) rest)
        ≡ spec.settled_selects (constant params.now) (with_select select.now rest)) }
{
    match select {
        Select::Bit(pos, index) => {
            let index = settled_box(alloc, index, params)?;
            Ok(Select::Bit(*pos, index))
        }
        Select::Part(pos, left, right) => {
            let left = settled_box(alloc, left, params)?;
            let right = settled_box(alloc, right, params)?;
            Ok(Select::Part(*pos, left, right))
        }
        Select::Indexed(pos, start, width) => {
            let start = settled_box(alloc, start, params)?;
            let width = settled_box(alloc, width, params)?;
            Ok(Select::Indexed(*pos, start, width))
        }
    }
}

/// A name whose selects are settled.
fn settled_name(
    alloc: Global,
    pos: Pos,
    text: &Text,
    all: List<Select>,
    params: &Params,
) -> Result<Expr, Memory>
    ensures { IfOk result (λ e. e ≡ spec.named_constant pos text.now (selects all) (constant params.now text.now)) }
{
    let is_whole = all.is_empty();
    let name = named(pos, text.copied(alloc)?, all);
    let Some(value) = params.get(text) else {
        return Ok(name);
    };
    if is_whole {
        discard(name);
        return Ok(numbered(pos, number_of(value)));
    }
    selected(alloc, pos, text, name, value)
}

fn named(pos: Pos, text: Text, all: List<Select>) -> Expr
    ensures { result ≡ tree.name pos text (selects all) }
{
    Expr {
        pos,
        kind: ExprKind::Name(text, all),
    }
}

fn numbered(pos: Pos, number: Number) -> Expr
    ensures { result ≡ tree.number pos number }
{
    Expr {
        pos,
        kind: ExprKind::Number(number),
    }
}

/// A constant as a number with a size.
pub(crate) fn number_of(value: &Const) -> Number
    ensures { result ≡ spec.number_of value.now }
{
    Number {
        sized: true,
        signed: value.signed,
        width: value.width,
        value: value.value,
        wild: 0,
        unknown: 0,
    }
}

/// A select of a constant by constants is an unsigned number; another one stays.
fn selected(alloc: Global, pos: Pos, text: &Text, name: Expr, value: &Const) -> Result<Expr, Memory>
    ensures { IfOk result (λ e. e ≡ spec.selected_constant pos text.now name value.now) }
{
    let env = alone(alloc, text, value)?;
    match size_of(&name, env.decls()) {
        None => Ok(name),
        Some(width) => {
            let number = value_of(&name, width, false, &env);
            discard(name);
            Ok(numbered(pos, number_of(&Const::cut_to(width, false, number))))
        }
    }
}

/// Lets an expression go.
fn discard(_expr: Expr) {}

/// A constant's name, declared as a vector with its number.
fn alone(alloc: Global, text: &Text, value: &Const) -> Result<Env, Memory>
    ensures decls { IfOk result (λ env. env.decls ≡ spec.vector_of text.now value.now ∷ []) }
    ensures numbers { IfOk result (λ env. values_of env ≡ spec.values_at text.now value.now) }
{
    let mut decls = Decls::new(alloc);
    decls.push(Decl {
        name: text.copied(alloc)?,
        width: value.width,
        signed: value.signed,
        left: i64::from(value.width) - 1,
        right: 0,
        words: None,
        class: Class::Net,
        output: false,
    })?;
    let mut env = Env::new(alloc, decls);
    env.set(text, value.value)?;
    Ok(env)
}
