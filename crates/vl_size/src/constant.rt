ghost use Rattle.std.specs.Prelude.{◌≡◌};
ghost use Rattle.vl_tree.specs.Expr.{exprs};
ghost use Rattle.vl_size.specs.Size as spec;

use vl_tree::{Expr, ExprKind};

/// Whether no name stands in the expression.
#[cycle(constant)]
#[tactic(auto, using(vl_tree::specs::ExprFalls::parts_fall))]
pub fn is_constant(expr: &Expr) -> bool
    ensures { result ≡ spec.is_constant expr.now }
{
    match &expr.kind {
        ExprKind::Number(_) => true,
        ExprKind::Name(_, _) => false,
        ExprKind::Paren(inner) => is_constant(inner),
        ExprKind::Unary(_, operand) | ExprKind::Cast(_, operand) => is_constant(operand),
        ExprKind::Binary(_, left, right) => is_constant(left) && is_constant(right),
        ExprKind::Conditional(condition, first, second) => is_constant(condition)
            && is_constant(first)
            && is_constant(second),
        ExprKind::Concat(parts) => are_constant(parts.as_slice()),
        ExprKind::Repeat(count, parts) => is_constant(count) && are_constant(parts.as_slice()),
    }
}

#[cycle(constant)]
fn are_constant(all: &[Expr]) -> bool
    ensures { result ≡ spec.are_constant (exprs all.now) }
{
    for part in all {
        if !is_constant(part) {
            return false;
        }
    }
    true
}
