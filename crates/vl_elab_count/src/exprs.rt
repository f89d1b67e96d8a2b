//! Nodes of expressions, selects and targets.
ghost use Rattle.std.specs.Prelude.{◌≡◌, ◌+◌};
ghost use Rattle.vl_tree.specs.Expr.{exprs};
ghost use Rattle.vl_tree.specs.ExprView.{selects};
ghost use Rattle.vl_tree.specs.Lval.{lvals};
ghost use Rattle.vl_mean.specs.ConstantFaults.{capped};
ghost use Rattle.vl_mean.specs.FlatLaw as flat;
ghost use Rattle.vl_elab_count.specs.Parts as spec;

use vl_mean::widths::plus;
use vl_tree::{Expr, ExprKind, Lval, LvalKind, Select};

/// An expression: one for each node of its tree, and one for each select.
#[cycle(nodes)]
#[tactic(auto, using(vl_tree::specs::ExprFalls::parts_fall, crate::proofs::CountSums::sums))]
pub fn expr_nodes(expr: &Expr) -> u64
    ensures { result ≡ capped (flat.nodes expr.now) }
{
    match &expr.kind {
        ExprKind::Number(_) => 1,
        ExprKind::Name(_, all) => plus(selects_nodes(all.as_slice()), 1),
        ExprKind::Paren(inner) | ExprKind::Unary(_, inner) | ExprKind::Cast(_, inner) => plus(
            expr_nodes(inner),
            1,
        ),
        ExprKind::Binary(_, left, right) => {
            let left = expr_nodes(left);
            let right = expr_nodes(right);
            plus(plus(left, right), 1)
        }
        ExprKind::Conditional(condition, first, second) => {
            let condition = expr_nodes(condition);
            let first = expr_nodes(first);
            let second = expr_nodes(second);
            plus(plus(plus(condition, first), second), 1)
        }
        ExprKind::Concat(parts) => plus(parts_nodes(parts.as_slice()), 1),
        ExprKind::Repeat(count, parts) => {
            let count = expr_nodes(count);
            let parts = parts_nodes(parts.as_slice());
            plus(plus(count, parts), 1)
        }
    }
}

#[cycle(nodes)]
#[tactic(auto, using(crate::proofs::CountSums::sums))]
fn parts_nodes(all: &[Expr]) -> u64
    ensures { result ≡ capped (flat.all_nodes (exprs all.now)) }
{
    let mut total = 0;
    let mut place = all.len();
    while place > 0 {
        place -= 1;
        let here = expr_nodes(&all[place]);
        total = plus(here, total);
    }
    total
}

#[cycle(nodes)]
#[tactic(auto, using(crate::proofs::CountSums::sums))]
fn select_nodes(select: &Select) -> u64
    ensures { result ≡ capped (spec.select_nodes select.now) }
{
    match select {
        Select::Bit(_, index) => plus(expr_nodes(index), 1),
        Select::Part(_, first, second) | Select::Indexed(_, first, second) => {
            let first = expr_nodes(first);
            let second = expr_nodes(second);
            plus(plus(first, second), 1)
        }
    }
}

#[cycle(nodes)]
#[tactic(auto, using(crate::proofs::CountSums::sums))]
fn selects_nodes(all: &[Select]) -> u64
    ensures { result ≡ capped (flat.select_nodes (selects all.now)) }
{
    let mut total = 0;
    let mut place = all.len();
    while place > 0 {
        place -= 1;
        let here = select_nodes(&all[place]);
        total = plus(here, total);
    }
    total
}

/// A target: one for each name, concatenation and select, and its indices.
#[cycle(target)]
#[tactic(auto, using(vl_tree::specs::LvalFalls::parts_fall, crate::proofs::CountSums::sums))]
pub fn target_nodes(target: &Lval) -> u64
    ensures { result ≡ capped (flat.target_nodes target.now) }
{
    match &target.kind {
        LvalKind::Name(_, all) => plus(selects_nodes(all.as_slice()), 1),
        LvalKind::Concat(all) => plus(targets_nodes(all.as_slice()), 1),
    }
}

#[cycle(target)]
#[tactic(auto, using(crate::proofs::CountSums::sums))]
fn targets_nodes(all: &[Lval]) -> u64
    ensures { result ≡ capped (flat.all_target_nodes (lvals all.now)) }
{
    let mut total = 0;
    let mut place = all.len();
    while place > 0 {
        place -= 1;
        let here = target_nodes(&all[place]);
        total = plus(here, total);
    }
    total
}
