//! Numbers of an operation on two numbers or constants, as the condition and the step of a loop are, without a copy.
ghost use Rattle.std.specs.Prelude.{◌≡◌, ◌≤◌, ◌&&◌, max, IfSome};
ghost use Rattle.fv_text.specs.declared.pos.Pos.{Pos};
ghost use Rattle.vl_tree.specs.Expr.{name, whole};
ghost use Rattle.vl_size.specs.Sign.{sign_by};
ghost use Rattle.vl_size.specs.Size as size_spec;
ghost use Rattle.vl_size.specs.Way.{way};
ghost use Rattle.vl_mean.specs.Constants.{constant_operand};
ghost use Rattle.vl_elab_spec.specs.Expressions.{known};
ghost use Rattle.vl_elab_spec.specs.Meanings.{constants};
ghost use Rattle.vl_elab_const.specs.Operations as spec;

use fv_bits::{bit, extended};
use fv_text::{Number, Text};
use vl_elab_scope::{Names, constant_of, number_of};
use vl_size::operation::{arithmetic, compared, shifted};
use vl_size::way::{Way, divides, size_by, way_of};
use vl_tree::{BinaryOperator, Expr, ExprKind};

fn is_true(x: Number) -> bool
    ensures { result ≡ size_spec.is_true (spec.number_operand x) }
{
    x.value != 0
}

fn both(first: bool, second: bool) -> bool
    ensures { result ≡ (first && second) }
{
    first && second
}

/// At the larger of both sizes, signed where both are.
fn compared_at(operator: BinaryOperator, x: Number, y: Number) -> bool
    ensures { let w = max x.width y.width in
        let s = (x.signed && y.signed) in
        result ≡ size_spec.compared operator w s ((spec.number_operand x).at w s) ((spec.number_operand y).at w s) }
{
    let width = x.width.max(y.width);
    let signed = both(x.signed, y.signed);
    let m = extended(x.width, width, signed, x.value);
    let n = extended(y.width, width, signed, y.value);
    compared(operator, width, signed, m, n)
}

fn tested(operator: BinaryOperator, x: Number, y: Number) -> bool
    ensures { result ≡ size_spec.tested operator (spec.number_operand x) (spec.number_operand y) }
{
    match operator {
        BinaryOperator::LogicalAnd => is_true(x) && is_true(y),
        BinaryOperator::LogicalOr => is_true(x) || is_true(y),
        _ => compared_at(operator, x, y),
    }
}

/// The number of the operation where size and sign come from its context.
fn operation(operator: BinaryOperator, width: u32, signed: bool, x: Number, y: Number) -> u128
    requires { width ≤ 128 }
    ensures { result
        ≡ size_spec.binary_number (way operator) operator width signed (spec.number_operand x) (spec.number_operand y) }
{
    match way_of(operator) {
        Way::Larger => {
            let m = extended(x.width, width, signed, x.value);
            let n = extended(y.width, width, signed, y.value);
            arithmetic(operator, width, signed, m, n)
        }
        Way::Left => {
            let m = extended(x.width, width, signed, x.value);
            shifted(operator, width, signed, m, y.value)
        }
        Way::One => extended(1, width, signed, bit(tested(operator, x, y))),
    }
}

fn operation_sign(operator: BinaryOperator, left: bool, right: bool) -> bool
    ensures { result ≡ sign_by (way operator) left right }
{
    match way_of(operator) {
        Way::Larger => both(left, right),
        Way::Left => left,
        Way::One => false,
    }
}

/// In a context of so many bits, or in its own where that is larger.
fn operation_at(operator: BinaryOperator, least: u32, x: Number, y: Number) -> u128
    requires { least ≤ 128 }
    ensures { let w = max least (size_spec.size_by (way operator) x.width y.width) in
        let s = sign_by (way operator) x.signed y.signed in
        result ≡ size_spec.binary_number (way operator) operator w s (spec.number_operand x) (spec.number_operand y) }
{
    let size = size_by(way_of(operator), x.width, y.width);
    let signed = operation_sign(operator, x.signed, y.signed);
    operation(operator, size.max(least), signed, x, y)
}

/// The number of the constant that a name means.
fn constant_number(text: &Text, numbers: &Names) -> Option<Number>
    ensures { IfSome result (λ n. (p : Pos) → spec.IsNumber n (known numbers.now (name p text.now whole))) }
{
    match constant_of(numbers, text) {
        None => None,
        Some(value) => Some(number_of(value)),
    }
}

/// A number, or that of a constant. None for anything else.
fn own_number(expr: &Expr, numbers: &Names) -> Option<Number>
    ensures { IfSome result (λ n. spec.IsNumber n (known numbers.now expr.now)) }
{
    match &expr.kind {
        ExprKind::Number(number) => Some(*number),
        ExprKind::Name(text, all) => match all.as_slice() {
            [] => constant_number(text, numbers),
            [_, ..] => None,
        },
        ExprKind::Paren(_) | ExprKind::Unary(_, _) | ExprKind::Binary(_, _, _) => None,
        ExprKind::Conditional(_, _, _) | ExprKind::Concat(_) | ExprKind::Repeat(_, _) => None,
        ExprKind::Cast(_, _) => None,
    }
}

/// An operation that is no division, on two numbers or constants. None for anything else.
pub(crate) fn operation_number(expr: &Expr, least: u32, numbers: &Names) -> Option<u128>
    requires { least ≤ 128 }
    ensures { IfSome result (λ n. let x = constant_operand (constants numbers.now) expr.now in
        n ≡ x.at (max least x.size) x.sign) }
{
    match &expr.kind {
        ExprKind::Binary(operator, left, right) => {
            if divides(*operator) {
                return None;
            }
            let x = own_number(left, numbers)?;
            let y = own_number(right, numbers)?;
            Some(operation_at(*operator, least, x, y))
        }
        ExprKind::Number(_) | ExprKind::Name(_, _) | ExprKind::Paren(_) => None,
        ExprKind::Unary(_, _) | ExprKind::Conditional(_, _, _) | ExprKind::Cast(_, _) => None,
        ExprKind::Concat(_) | ExprKind::Repeat(_, _) => None,
    }
}
