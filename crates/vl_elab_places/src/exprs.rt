//! The nodes of expressions, selects and targets, one behind the other.
ghost use Rattle.std.specs.Prelude.{◌≡◌};
ghost use Rattle.vl_tree.specs.Expr.{exprs};
ghost use Rattle.vl_tree.specs.ExprView.{selects, with_select};
ghost use Rattle.vl_tree.specs.Expr as tree;
ghost use Rattle.vl_tree.specs.Lval.{lvals};
ghost use Rattle.vl_elab_places.specs.Passing as spec;

use crate::cursor::Cursor;
use vl_tree::{Expr, ExprKind, Lval, LvalKind, Select};

/// Behind an expression: a node comes before its parts.
#[cycle(nodes)]
#[tactic(auto, using(vl_tree::specs::ExprFalls::parts_fall, crate::proofs::Lists::depths))]
pub(crate) fn pass_expr(expr: &Expr, start: Cursor) -> Cursor
    ensures { result ≡ spec.expr_passed expr.now start }
{
    let at = start.moved(1, expr.pos);
    match &expr.kind {
        ExprKind::Number(_) => at,
        ExprKind::Name(_, all) => pass_selects(all.as_slice(), at),
        ExprKind::Paren(inner) | ExprKind::Unary(_, inner) | ExprKind::Cast(_, inner) => {
            pass_expr(inner, at)
        }
        ExprKind::Binary(_, left, right) => {
            let behind = pass_expr(left, at);
            pass_expr(right, behind)
        }
        ExprKind::Conditional(condition, first, second) => {
            let behind = pass_expr(condition, at);
            let between = pass_expr(first, behind);
            pass_expr(second, between)
        }
        ExprKind::Concat(parts) => pass_exprs(parts.as_slice(), at),
        ExprKind::Repeat(count, parts) => {
            let behind = pass_expr(count, at);
            pass_exprs(parts.as_slice(), behind)
        }
    }
}

#[cycle(nodes)]
#[tactic(auto, using(crate::proofs::Lists::depths))]
fn pass_exprs(all: &[Expr], start: Cursor) -> Cursor
    ensures { result ≡ spec.exprs_passed (exprs all.now) start }
{
    let mut at = start;
    for part in all {
        at = pass_expr(part, at);
    }
    at
}

#[cycle(nodes)]
#[tactic(auto, using(crate::proofs::Lists::depths))]
fn pass_selects(all: &[Select], start: Cursor) -> Cursor
    ensures { result ≡ spec.selects_passed (selects all.now) start }
{
    let mut at = start;
    for select in all {
        at = pass_select(select, at);
    }
    at
}

#[cycle(nodes)]
#[tactic(auto, using(crate::proofs::Lists::depths))]
fn pass_select(select: &Select, start: Cursor) -> Cursor
    ensures { (rest : tree.Selects) → spec.selects_passed (with_select select.now rest) start
        ≡ spec.selects_passed rest result }
{
    match select {
        Select::Bit(pos, index) => {
            let at = start.moved(1, *pos);
            pass_expr(index, at)
        }
        Select::Part(pos, first, second) | Select::Indexed(pos, first, second) => {
            let at = start.moved(1, *pos);
            let between = pass_expr(first, at);
            pass_expr(second, between)
        }
    }
}

/// Behind a target.
#[cycle(target)]
#[tactic(auto, using(vl_tree::specs::LvalFalls::parts_fall, crate::proofs::Lists::depths))]
pub(crate) fn pass_target(target: &Lval, start: Cursor) -> Cursor
    ensures { result ≡ spec.target_passed target.now start }
{
    let at = start.moved(1, target.pos);
    match &target.kind {
        LvalKind::Name(_, all) => pass_selects(all.as_slice(), at),
        LvalKind::Concat(all) => pass_targets(all.as_slice(), at),
    }
}

#[cycle(target)]
#[tactic(auto, using(crate::proofs::Lists::depths))]
fn pass_targets(all: &[Lval], start: Cursor) -> Cursor
    ensures { result ≡ spec.targets_passed (lvals all.now) start }
{
    let mut at = start;
    for part in all {
        at = pass_target(part, at);
    }
    at
}
