//! Whether what has to be constant isn't, and which targets are nets.
ghost use Rattle.std.specs.Prelude.{◌≡◌, ◌||◌, ◌&&◌, true, not};
ghost use Rattle.vl_tree.specs.Expr.{exprs};
ghost use Rattle.vl_tree.specs.ExprView.{selects};
ghost use Rattle.vl_tree.specs.Lval.{lvals};
ghost use Rattle.vl_elab_spec.specs.Expressions.{is_constant_name, select_refusals};
ghost use Rattle.vl_elab_spec.specs.Items as items;
ghost use Rattle.vl_elab_spec.specs.Meanings as meanings;
ghost use Rattle.vl_elab_check_instance.specs.Parts as spec;
ghost use Rattle.vl_elab_scope.specs.Seen.{seen};

use fv_text::Text;
use vl_elab_check_expr::{either, is_constant};
use vl_elab_scope::{Meaning, Names};
use vl_elab_spec::Role;
use vl_size::way::divides;
use vl_tree::{Expr, ExprKind, Lval, LvalKind, Select};

fn meaning_varies(fixed: bool, meaning: &Meaning) -> bool
    ensures { result ≡ spec.name_varies fixed (seen meaning.now) }
{
    match meaning {
        Meaning::Later => true,
        Meaning::Object(_) | Meaning::Shapeless => fixed,
        Meaning::Constant(_, _) | Meaning::LoopVariable | Meaning::Faulty => false,
    }
}

#[cycle(varies)]
#[tactic(auto, using(vl_tree::specs::ExprFalls::parts_fall))]
fn varies(expr: &Expr, fixed: bool, names: &Names) -> bool
    ensures { result ≡ spec.varies names.now fixed expr.now }
{
    match &expr.kind {
        ExprKind::Number(_) => false,
        ExprKind::Name(text, all) => name_varies(text, all.as_slice(), fixed, names),
        ExprKind::Paren(inner) | ExprKind::Unary(_, inner) | ExprKind::Cast(_, inner) => varies(
            inner, fixed, names,
        ),
        ExprKind::Binary(operator, left, right) => {
            let fixed = either(fixed, divides(*operator));
            let first = varies(left, fixed, names);
            let second = varies(right, fixed, names);
            either(first, second)
        }
        ExprKind::Conditional(condition, first, second) => {
            let tested = varies(condition, fixed, names);
            let first = varies(first, fixed, names);
            let second = varies(second, fixed, names);
            either(either(tested, first), second)
        }
        ExprKind::Concat(parts) => any_varies(parts.as_slice(), fixed, names),
        ExprKind::Repeat(count, parts) => {
            let counted = varies(count, true, names);
            let found = any_varies(parts.as_slice(), fixed, names);
            either(counted, found)
        }
    }
}

#[cycle(varies)]
#[tactic(auto, using(vl_elab_check_expr::proofs::Lowest::judged))]
fn any_varies(all: &[Expr], fixed: bool, names: &Names) -> bool
    ensures { result ≡ spec.any_varies names.now fixed (exprs all.now) }
{
    let mut found = false;
    let mut place = all.len();
    while place > 0 {
        place -= 1;
        let here = varies(&all[place], fixed, names);
        found = either(here, found);
    }
    found
}

#[cycle(varies)]
#[tactic(auto, using(vl_elab_check_expr::proofs::Lowest::judged, crate::proofs::Vary::next))]
fn any_select_varies(all: &[Select], fixed: bool, names: &Names) -> bool
    ensures { result ≡ spec.selects_vary names.now fixed (selects all.now) }
{
    let mut found = false;
    let mut place = all.len();
    while place > 0 {
        place -= 1;
        let here = select_varies(&all[place], fixed, names);
        found = either(here, found);
    }
    found
}

#[cycle(varies)]
fn select_varies(select: &Select, fixed: bool, names: &Names) -> bool
    ensures { result ≡ spec.select_varies names.now fixed select.now }
{
    match select {
        Select::Bit(_, index) => varies(index, fixed, names),
        Select::Part(_, left, right) => {
            let first = varies(left, true, names);
            let second = varies(right, true, names);
            either(first, second)
        }
        Select::Indexed(_, start, count) => {
            let first = varies(start, fixed, names);
            let second = varies(count, true, names);
            either(first, second)
        }
    }
}

/// A constant is selected from by constants.
#[cycle(varies)]
fn name_varies(text: &Text, all: &[Select], fixed: bool, names: &Names) -> bool
    ensures { let m = meanings.meaning_in names.now text.now in
        result ≡ (spec.selects_vary names.now (fixed || is_constant_name names.now m) (selects all.now)
        || spec.name_varies fixed m) }
{
    match names.meaning(text) {
        None => any_select_varies(all, fixed, names),
        Some(meaning) => {
            let inner = any_select_varies(all, either(fixed, is_constant(meaning)), names);
            either(inner, meaning_varies(fixed, meaning))
        }
    }
}

/// Whether selects that have to be constant aren't: whether one of their refusals says so.
#[tactic(auto, using(crate::proofs::Vary::same_selects))]
pub(crate) fn selects_vary(all: &[Select], names: &Names) -> bool
    ensures { result ≡ items.varies_by (select_refusals names.now true (selects all.now)) }
{
    any_select_varies(all, true, names)
}

fn is_variable(role: Role) -> bool
    ensures { result ≡ meanings.is_declared_variable role }
{
    matches!(role, Role::Variable)
}

fn is_net_name(meaning: &Meaning) -> bool
    ensures { result ≡ items.is_net_name (seen meaning.now) }
{
    match meaning {
        Meaning::Object(object) => !is_variable(object.role),
        Meaning::Faulty | Meaning::Shapeless => true,
        Meaning::Constant(_, _) | Meaning::LoopVariable | Meaning::Later => false,
    }
}

fn both(first: bool, second: bool) -> bool
    ensures { result ≡ (first && second) }
{
    first && second
}

fn is_net_part(text: &Text, all: &[Select], names: &Names) -> bool
    ensures { result ≡ (items.is_net_name (meanings.meaning_in names.now text.now)
        && not (items.varies_by (select_refusals names.now true (selects all.now)))) }
{
    match names.meaning(text) {
        None => false,
        Some(meaning) => both(is_net_name(meaning), !selects_vary(all, names)),
    }
}

/// Whether the target of a continuous assignment is a net by itself, a constant part of one, or such joined.
#[cycle(net)]
#[tactic(auto, using(vl_tree::specs::LvalFalls::parts_fall))]
pub(crate) fn is_net_target(target: &Lval, names: &Names) -> bool
    ensures { result ≡ items.is_net_target names.now target.now }
{
    match &target.kind {
        LvalKind::Name(text, all) => is_net_part(text, all.as_slice(), names),
        LvalKind::Concat(all) => are_net_targets(all.as_slice(), names),
    }
}

#[cycle(net)]
#[tactic(auto, using(vl_elab_check_stmt::proofs::TargetParts::steps))]
fn are_net_targets(all: &[Lval], names: &Names) -> bool
    ensures { result ≡ items.are_net_targets names.now (lvals all.now) }
{
    let mut found = true;
    let mut place = all.len();
    while place > 0 {
        place -= 1;
        let here = is_net_target(&all[place], names);
        found = both(here, found);
    }
    found
}
