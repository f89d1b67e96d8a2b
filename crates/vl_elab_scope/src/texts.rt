//! The names that stand in an expression.
ghost use Rattle.std.specs.Prelude.{◌≡◌, ◌++◌, OnOk};
ghost use Rattle.vl_tree.specs.Expr.{exprs};
ghost use Rattle.vl_tree.specs.ExprView.{selects, with_select};
ghost use Rattle.vl_tree.specs.Expr as tree;
ghost use Rattle.vl_elab_scope.specs.Texts as spec;

use fv_text::{List, Memory, Text};
use std::alloc::Global;
use vl_tree::{Expr, ExprKind, Select};

/// Adds the names in the expression, in order, each time that one stands there.
#[cycle(texts)]
#[tactic(auto, using(vl_tree::specs::ExprFalls::parts_fall, crate::proofs::TextLemmas::joined))]
pub(crate) fn add_texts(alloc: Global, expr: &Expr, out: &mut List<Text>) -> Result<(), Memory>
    ensures { OnOk result (out.new ≡ out.old ++ spec.texts expr.now) }
{
    match &expr.kind {
        ExprKind::Number(_) => Ok(()),
        ExprKind::Name(text, all) => {
            out.push(text.copied(alloc)?)?;
            add_selects_texts(alloc, all.as_slice(), out)
        }
        ExprKind::Paren(inner) | ExprKind::Unary(_, inner) | ExprKind::Cast(_, inner) => add_texts(
            alloc, inner, out,
        ),
        ExprKind::Binary(_, left, right) => {
            add_texts(alloc, left, out)?;
            add_texts(alloc, right, out)
        }
        ExprKind::Conditional(condition, first, second) => {
            add_texts(alloc, condition, out)?;
            add_texts(alloc, first, out)?;
            add_texts(alloc, second, out)
        }
        ExprKind::Concat(parts) => add_exprs_texts(alloc, parts.as_slice(), out),
        ExprKind::Repeat(count, parts) => {
            add_texts(alloc, count, out)?;
            add_exprs_texts(alloc, parts.as_slice(), out)
        }
    }
}

#[cycle(texts)]
#[tactic(auto, using(crate::proofs::TextLemmas::joined))]
fn add_exprs_texts(alloc: Global, all: &[Expr], out: &mut List<Text>) -> Result<(), Memory>
    ensures { OnOk result (out.new ≡ out.old ++ spec.exprs_texts (exprs all.now)) }
{
    for part in all {
        add_texts(alloc, part, out)?;
    }
    Ok(())
}

#[cycle(texts)]
#[tactic(auto, using(crate::proofs::TextLemmas::joined))]
pub(crate) fn add_selects_texts(
    alloc: Global,
    all: &[Select],
    out: &mut List<Text>,
) -> Result<(), Memory>
    ensures { OnOk result (out.new ≡ out.old ++ spec.selects_texts (selects all.now)) }
{
    for select in all {
        add_select_texts(alloc, select, out)?;
    }
    Ok(())
}

#[cycle(texts)]
#[tactic(auto, using(crate::proofs::TextLemmas::joined))]
fn add_select_texts(alloc: Global, select: &Select, out: &mut List<Text>) -> Result<(), Memory>
    ensures { OnOk result ((rest : tree.Selects) → out.old ++ spec.selects_texts (with_select select.now rest)
        ≡ out.new ++ spec.selects_texts rest) }
{
    match select {
        Select::Bit(_, index) => add_texts(alloc, index, out),
        Select::Part(_, first, second) | Select::Indexed(_, first, second) => {
            add_texts(alloc, first, out)?;
            add_texts(alloc, second, out)
        }
    }
}
