//! Whether a port is joined to the clock.
ghost use Rattle.std.specs.Prelude.{◌≡◌, ◌&&◌};
ghost use Rattle.vl_tree.specs.ExprView.{selects};
ghost use Rattle.vl_elab_spec.specs.Meanings.{is_undeclared, meaning_in};
ghost use Rattle.vl_elab_names.specs.Known.{contains};
ghost use Rattle.vl_elab_check_instance.specs.Clock as spec;

use fv_text::Text;
use vl_elab_names::NameSet;
use vl_elab_scope::Names;
use vl_tree::{Expr, ExprKind, Select};

/// A name that the module calls the clock, and that nothing within has.
#[tactic(auto, using(crate::proofs::Clocks::undeclared_none))]
fn is_clock_name(name: &Text, numbers: &Names, clocks: &NameSet) -> bool
    ensures { result ≡ (contains clocks.now name.now && is_undeclared (meaning_in numbers.now name.now)) }
{
    if !clocks.contains(name) {
        return false;
    }
    numbers.meaning(name).is_none()
}

fn is_clock_part(name: &Text, all: &[Select], numbers: &Names, clocks: &NameSet) -> bool
    ensures { result ≡ spec.is_clock_part (contains clocks.now) numbers.now name.now (selects all.now) }
{
    match all {
        [] => is_clock_name(name, numbers, clocks),
        [_, ..] => false,
    }
}

fn is_clock_expr(expr: &Expr, numbers: &Names, clocks: &NameSet) -> bool
    ensures { result ≡ spec.is_clock_expr (contains clocks.now) numbers.now expr.now }
{
    match &expr.kind {
        ExprKind::Name(name, all) => is_clock_part(name, all.as_slice(), numbers, clocks),
        ExprKind::Number(_) | ExprKind::Paren(_) | ExprKind::Unary(_, _) => false,
        ExprKind::Binary(_, _, _) | ExprKind::Conditional(_, _, _) => false,
        ExprKind::Concat(_) | ExprKind::Repeat(_, _) | ExprKind::Cast(_, _) => false,
    }
}

/// The clock by its plain name, over the numbers of constants and the inputs of the module that are the clock.
pub(crate) fn is_clock(value: &Option<Expr>, numbers: &Names, clocks: &NameSet) -> bool
    ensures { result ≡ spec.is_clock (contains clocks.now) numbers.now value.now }
{
    match value {
        None => false,
        Some(expr) => is_clock_expr(expr, numbers, clocks),
    }
}
