ghost use Rattle.std.specs.Prelude.{◌≡◌};
ghost use Rattle.vl_tree.specs.ExprView.{selects};
ghost use Rattle.vl_size.specs.Sign as spec;

use crate::decl::Decl;
use crate::decls::Decls;
use crate::way::{Way, keeps_size, way_of};
use vl_tree::{Cast, Expr, ExprKind, Select};

/// Whether the expression is signed (IEEE 1364-2005, section 5.5.1). Where a name isn't declared it counts as unsigned.
pub fn sign_of(expr: &Expr, decls: &Decls) -> bool
    ensures { result ≡ spec.sign decls.now expr.now }
{
    match &expr.kind {
        ExprKind::Number(number) => number.signed,
        ExprKind::Name(text, selects) => match decls.named(text) {
            Some(decl) => name_sign(decl, selects.as_slice()),
            None => false,
        },
        ExprKind::Paren(inner) => sign_of(inner, decls),
        ExprKind::Unary(operator, operand) => keeps_size(*operator) && sign_of(operand, decls),
        ExprKind::Binary(operator, left, right) => match way_of(*operator) {
            Way::Larger => sign_of(left, decls) && sign_of(right, decls),
            Way::Left => sign_of(left, decls),
            Way::One => false,
        },
        ExprKind::Conditional(_, first, second) => sign_of(first, decls) && sign_of(second, decls),
        ExprKind::Concat(_) | ExprKind::Repeat(_, _) => false,
        ExprKind::Cast(cast, _) => matches!(cast, Cast::Signed),
    }
}

fn name_sign(decl: &Decl, all: &[Select]) -> bool
    ensures { result ≡ spec.name_sign decl.now.words decl.now.signed (selects all.now) }
{
    match decl.words {
        None => vector_sign(decl.signed, all),
        Some(_) => word_sign(decl.signed, all),
    }
}

/// A select of a vector is unsigned.
fn vector_sign(signed: bool, all: &[Select]) -> bool
    ensures { result ≡ spec.vector_sign signed (selects all.now) }
{
    match all {
        [] => signed,
        [Select::Bit(_, _), ..] | [Select::Part(_, _, _), ..] | [Select::Indexed(_, _, _), ..] =>
            false,
    }
}

/// Of a memory, the first select takes the word.
fn word_sign(signed: bool, all: &[Select]) -> bool
    ensures { result ≡ spec.word_sign signed (selects all.now) }
{
    match all {
        [Select::Bit(_, _)] => signed,
        [Select::Bit(_, _), Select::Bit(_, _), ..]
        | [Select::Bit(_, _), Select::Part(_, _, _), ..]
        | [Select::Bit(_, _), Select::Indexed(_, _, _), ..] => false,
        [] | [Select::Part(_, _, _), ..] | [Select::Indexed(_, _, _), ..] => false,
    }
}
