//! Whether a quotient or a remainder stands in an expression.
ghost use Rattle.std.specs.Prelude.{◌≡◌, ◌||◌};
ghost use Rattle.vl_tree.specs.Expr.{exprs};
ghost use Rattle.vl_tree.specs.ExprView.{selects};
ghost use Rattle.vl_elab_scope.specs.Divisions as spec;

use vl_size::way::divides;
use vl_tree::{Expr, ExprKind, Select};

fn either(first: bool, second: bool) -> bool
    ensures { result ≡ (first || second) }
{
    first || second
}

/// Without one no divisor in it is 0, whatever its names mean.
#[cycle(divisions)]
#[tactic(auto, using(vl_tree::specs::ExprFalls::parts_fall))]
pub(crate) fn has_division(expr: &Expr) -> bool
    ensures { result ≡ spec.has_division expr.now }
{
    match &expr.kind {
        ExprKind::Number(_) => false,
        ExprKind::Name(_, all) => selects_have_division(all.as_slice()),
        ExprKind::Paren(inner) | ExprKind::Unary(_, inner) | ExprKind::Cast(_, inner) => {
            has_division(inner)
        }
        ExprKind::Binary(operator, left, right) => {
            let left = has_division(left);
            let both = either(left, has_division(right));
            either(divides(*operator), both)
        }
        ExprKind::Conditional(condition, first, second) => {
            let first = has_division(first);
            let both = either(first, has_division(second));
            either(has_division(condition), both)
        }
        ExprKind::Concat(parts) => parts_have_division(parts.as_slice()),
        ExprKind::Repeat(count, parts) => {
            let parts = parts_have_division(parts.as_slice());
            either(has_division(count), parts)
        }
    }
}

#[cycle(divisions)]
#[tactic(auto, using(crate::proofs::Dividing::dividing))]
fn parts_have_division(all: &[Expr]) -> bool
    ensures { result ≡ spec.parts_have_division (exprs all.now) }
{
    let mut found = false;
    let mut place = all.len();
    while place > 0 {
        place -= 1;
        found = either(has_division(&all[place]), found);
    }
    found
}

#[cycle(divisions)]
#[tactic(auto, using(crate::proofs::Dividing::dividing))]
fn selects_have_division(all: &[Select]) -> bool
    ensures { result ≡ spec.selects_have_division (selects all.now) }
{
    let mut found = false;
    let mut place = all.len();
    while place > 0 {
        place -= 1;
        found = either(select_has_division(&all[place]), found);
    }
    found
}

#[cycle(divisions)]
fn select_has_division(select: &Select) -> bool
    ensures { result ≡ spec.select_has_division select.now }
{
    match select {
        Select::Bit(_, index) => has_division(index),
        Select::Part(_, first, second) | Select::Indexed(_, first, second) => {
            let first = has_division(first);
            either(first, has_division(second))
        }
    }
}
