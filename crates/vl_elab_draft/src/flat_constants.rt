//! The constants that an expression names.
ghost use Rattle.std.specs.Prelude.{◌≡◌, ◌∷◌, [], ℕ, List, IfOk, OnOk};
ghost use Rattle.vl_tree.specs.Expr.{exprs};
ghost use Rattle.vl_tree.specs.ExprView.{selects, with_select};
ghost use Rattle.vl_tree.specs.Expr as tree;
ghost use Rattle.vl_mean.specs.Params.{constant};
ghost use Rattle.vl_mean.specs.Scopes.{constant_in};
ghost use Rattle.vl_elab_scope.specs.Texts.{texts, exprs_texts, selects_texts, AgreeOn};
ghost use Rattle.vl_elab_draft.specs.Filled.{filled};

use crate::scopes::Scopes;
use fv_text::{Memory, Text};
use std::alloc::Global;
use vl_mean::Params;
use vl_tree::{Expr, ExprKind, Select};

/// A table of the constants that the expression names.
pub(crate) fn params_of(alloc: Global, expr: &Expr, scopes: &Scopes) -> Result<Params, Memory>
    ensures { IfOk result (λ params. AgreeOn (constant params) (constant_in scopes.now) (texts expr.now)) }
{
    let mut params = Params::new(alloc);
    add_constants(alloc, expr, scopes, &mut params)?;
    Ok(params)
}

#[cycle(constants)]
#[tactic(auto, using(vl_tree::specs::ExprFalls::parts_fall))]
fn add_constants(
    alloc: Global,
    expr: &Expr,
    scopes: &Scopes,
    params: &mut Params,
) -> Result<(), Memory>
    ensures { OnOk result ((other : List ℕ) → constant params.new other
        ≡ filled (constant_in scopes.now) (texts expr.now) (constant params.old other) other) }
{
    match &expr.kind {
        ExprKind::Number(_) => Ok(()),
        ExprKind::Name(text, all) => {
            add_constant(alloc, text, scopes, params)?;
            add_selects_constants(alloc, all.as_slice(), scopes, params)
        }
        ExprKind::Paren(inner) | ExprKind::Unary(_, inner) | ExprKind::Cast(_, inner) => {
            add_constants(alloc, inner, scopes, params)
        }
        ExprKind::Binary(_, left, right) => {
            add_constants(alloc, left, scopes, params)?;
            add_constants(alloc, right, scopes, params)
        }
        ExprKind::Conditional(condition, first, second) => {
            add_constants(alloc, condition, scopes, params)?;
            add_constants(alloc, first, scopes, params)?;
            add_constants(alloc, second, scopes, params)
        }
        ExprKind::Concat(parts) => add_parts_constants(alloc, parts.as_slice(), scopes, params),
        ExprKind::Repeat(count, parts) => {
            add_constants(alloc, count, scopes, params)?;
            add_parts_constants(alloc, parts.as_slice(), scopes, params)
        }
    }
}

#[cycle(constants)]
fn add_parts_constants(
    alloc: Global,
    all: &[Expr],
    scopes: &Scopes,
    params: &mut Params,
) -> Result<(), Memory>
    ensures { OnOk result ((other : List ℕ) → constant params.new other
        ≡ filled (constant_in scopes.now) (exprs_texts (exprs all.now)) (constant params.old other) other) }
{
    for part in all {
        add_constants(alloc, part, scopes, params)?;
    }
    Ok(())
}

#[cycle(constants)]
fn add_selects_constants(
    alloc: Global,
    all: &[Select],
    scopes: &Scopes,
    params: &mut Params,
) -> Result<(), Memory>
    ensures { OnOk result ((other : List ℕ) → constant params.new other
        ≡ filled (constant_in scopes.now) (selects_texts (selects all.now)) (constant params.old other) other) }
{
    for select in all {
        add_select_constants(alloc, select, scopes, params)?;
    }
    Ok(())
}

#[cycle(constants)]
fn add_select_constants(
    alloc: Global,
    select: &Select,
    scopes: &Scopes,
    params: &mut Params,
) -> Result<(), Memory>
    ensures { OnOk result ((rest : tree.Selects) (other : List ℕ)
        → filled (constant_in scopes.now) (selects_texts rest) (constant params.new other) other
        ≡ filled (constant_in scopes.now) (selects_texts (with_select select.now rest)) (constant params.old other)
        other) }
{
    match select {
        Select::Bit(_, index) => add_constants(alloc, index, scopes, params),
        Select::Part(_, first, second) | Select::Indexed(_, first, second) => {
            add_constants(alloc, first, scopes, params)?;
            add_constants(alloc, second, scopes, params)
        }
    }
}

/// Where the name means a constant.
fn add_constant(
    alloc: Global,
    name: &Text,
    scopes: &Scopes,
    params: &mut Params,
) -> Result<(), Memory>
    ensures { OnOk result ((other : List ℕ) → constant params.new other
        ≡ filled (constant_in scopes.now) (name.now ∷ []) (constant params.old other) other) }
{
    if params.get(name).is_some() {
        return Ok(());
    }
    match scopes.constant(name) {
        None => Ok(()),
        Some(value) => params.set(name.copied(alloc)?, *value),
    }
}
