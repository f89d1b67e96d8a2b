//! Divisors that are 0, each at the size and the sign that its context gives.
ghost use Rattle.std.specs.Prelude.{◌≡◌, ◌≤◌, ◌==◌, IfSome};
ghost use Rattle.vl_tree.specs.Expr.{exprs};
ghost use Rattle.vl_tree.specs.ExprView.{selects};
ghost use Rattle.vl_size.specs.Divisors as spec;
ghost use Rattle.vl_size.specs.Size as size_spec;
ghost use Rattle.vl_size.specs.Way.{way};

use crate::constant::is_constant;
use crate::context::Context;
use crate::decls::Decls;
use crate::earlier::earlier_place;
use crate::numbers::Numbers;
use crate::sign::sign_of;
use crate::size::{evaluate, self_size};
use crate::way::{Way, divides, keeps_size, way_of};
use fv_text::Pos;
use vl_tree::{BinaryOperator, Expr, ExprKind, Select};

/// The size of a whole expression by itself, from 1 to 128 bits (IEEE 1364-2005, section 5.4). None exactly where a
/// name in it isn't declared, a node in it isn't valid by itself, a size is above 128, or a divisor is 0 at the size
/// and the sign that it has there.
pub fn size_of(expr: &Expr, decls: &Decls) -> Option<u32>
    ensures value { result ≡ spec.valid_size decls.now expr.now }
    ensures range { IfSome result (λ m. (1 ≤ m) × (m ≤ 128)) }
{
    match own_zero_divisor(expr, decls) {
        None => self_size(expr, decls),
        Some(_) => None,
    }
}

/// The earliest division by 0 in an expression, which has the size and the sign of the context; at the division's
/// first token. None where there is none. A divisor in which a division is one has no value, and isn't 0.
#[cycle(divisor)]
#[tactic(auto, using(vl_tree::specs::ExprFalls::parts_fall))]
pub fn zero_divisor(expr: &Expr, context: Context, decls: &Decls) -> Option<Pos>
    requires { IfSome context.size (λ w. w ≤ 128) }
    ensures { result ≡ spec.zero_divisor decls.now context expr.now }
{
    match &expr.kind {
        ExprKind::Number(_) => None,
        ExprKind::Name(_, all) => selects_zero_divisor(all.as_slice(), decls),
        ExprKind::Paren(inner) => zero_divisor(inner, context, decls),
        ExprKind::Unary(operator, operand) => {
            if keeps_size(*operator) {
                zero_divisor(operand, context, decls)
            } else {
                own_zero_divisor(operand, decls)
            }
        }
        ExprKind::Binary(operator, left, right) => {
            let first = left_context(*operator, left, right, context, decls);
            let first = zero_divisor(left, first, decls);
            let second = right_context(*operator, left, right, context, decls);
            let second = zero_divisor(right, second, decls);
            let is_zero = divides(*operator) && second.is_none() && is_zero(right, context, decls);
            earlier_place(place_if(is_zero, expr.pos), earlier_place(first, second))
        }
        ExprKind::Conditional(condition, first, second) => {
            let first = zero_divisor(first, context, decls);
            let both = earlier_place(first, zero_divisor(second, context, decls));
            earlier_place(own_zero_divisor(condition, decls), both)
        }
        ExprKind::Concat(parts) => parts_zero_divisor(parts.as_slice(), decls),
        ExprKind::Repeat(count, parts) => {
            let parts = parts_zero_divisor(parts.as_slice(), decls);
            earlier_place(own_zero_divisor(count, decls), parts)
        }
        ExprKind::Cast(_, operand) => own_zero_divisor(operand, decls),
    }
}

fn place_if(is_there: bool, pos: Pos) -> Option<Pos>
    ensures { result ≡ spec.place_if is_there pos }
{
    if is_there { Some(pos) } else { None }
}

/// Where the expression has the size and the sign that it has by itself.
#[cycle(divisor)]
pub fn own_zero_divisor(expr: &Expr, decls: &Decls) -> Option<Pos>
    ensures { result ≡ spec.own_zero_divisor decls.now expr.now }
{
    zero_divisor(expr, own_context(expr, decls), decls)
}

/// What the expression has by itself.
pub fn own_context(expr: &Expr, decls: &Decls) -> Context
    ensures value { result ≡ spec.own_context decls.now expr.now }
    ensures few { IfSome result.size (λ w. w ≤ 128) }
{
    Context {
        size: self_size(expr, decls),
        signed: sign_of(expr, decls),
    }
}

/// The larger of two sizes that are there.
fn larger(m: Option<u32>, n: Option<u32>) -> Option<u32>
    requires left { IfSome m (λ w. w ≤ 128) }
    requires right { IfSome n (λ w. w ≤ 128) }
    ensures value { result ≡ spec.larger m n }
    ensures few { IfSome result (λ w. w ≤ 128) }
{
    let m = m?;
    let n = n?;
    Some(m.max(n))
}

/// What both operands of a comparison have.
fn shared_context(left: &Expr, right: &Expr, decls: &Decls) -> Context
    ensures value { result ≡ spec.shared_context decls.now left.now right.now }
    ensures few { IfSome result.size (λ w. w ≤ 128) }
{
    Context {
        size: larger(self_size(left, decls), self_size(right, decls)),
        signed: sign_of(left, decls) && sign_of(right, decls),
    }
}

fn is_logical(operator: BinaryOperator) -> bool
    ensures { result ≡ spec.is_logical operator }
{
    matches!(
        operator,
        BinaryOperator::LogicalAnd | BinaryOperator::LogicalOr
    )
}

/// What the left operand of an operation has that has the size and the sign of the context.
fn left_context(
    operator: BinaryOperator,
    left: &Expr,
    right: &Expr,
    context: Context,
    decls: &Decls,
) -> Context
    requires { IfSome context.size (λ w. w ≤ 128) }
    ensures value { result
        ≡ spec.left_context decls.now (way operator) operator context left.now right.now }
    ensures few { IfSome result.size (λ w. w ≤ 128) }
{
    match way_of(operator) {
        Way::Larger | Way::Left => context,
        Way::One => {
            if is_logical(operator) {
                own_context(left, decls)
            } else {
                shared_context(left, right, decls)
            }
        }
    }
}

/// What the right one has.
fn right_context(
    operator: BinaryOperator,
    left: &Expr,
    right: &Expr,
    context: Context,
    decls: &Decls,
) -> Context
    requires { IfSome context.size (λ w. w ≤ 128) }
    ensures value { result
        ≡ spec.right_context decls.now (way operator) operator context left.now right.now }
    ensures few { IfSome result.size (λ w. w ≤ 128) }
{
    match way_of(operator) {
        Way::Larger => context,
        Way::Left => own_context(right, decls),
        Way::One => {
            if is_logical(operator) {
                own_context(right, decls)
            } else {
                shared_context(left, right, decls)
            }
        }
    }
}

/// Whether the divisor is a constant with the value 0 in the context.
fn is_zero(divisor: &Expr, context: Context, decls: &Decls) -> bool
    requires { IfSome context.size (λ w. w ≤ 128) }
    ensures { result ≡ spec.is_zero decls.now context divisor.now }
{
    if !is_constant(divisor) {
        return false;
    }
    match context.size {
        None => false,
        Some(width) => is_zero_at(divisor, width, context.signed, decls),
    }
}

fn is_zero_at(divisor: &Expr, width: u32, signed: bool, decls: &Decls) -> bool
    requires { width ≤ 128 }
    ensures { result ≡ spec.holds_of (size_spec.size decls.now divisor.now)
        (λ n. size_spec.value decls.now size_spec.no_names width signed divisor.now == 0) }
{
    let mut numbers = Numbers::zero();
    match evaluate(divisor, decls, &mut numbers) {
        None => false,
        Some(_) => numbers.at(width, signed) == 0,
    }
}

/// In parts, each of which has the size and the sign that it has by itself.
#[cycle(divisor)]
#[tactic(auto, using(crate::proofs::Falls::parts))]
fn parts_zero_divisor(all: &[Expr], decls: &Decls) -> Option<Pos>
    ensures { result ≡ spec.parts_zero_divisor decls.now (exprs all.now) }
{
    let mut found = None;
    let mut place = all.len();
    while place > 0 {
        place -= 1;
        found = earlier_place(own_zero_divisor(&all[place], decls), found);
    }
    found
}

/// In the indices, bounds and counts of selects.
#[cycle(divisor)]
#[tactic(auto, using(crate::proofs::Falls::parts))]
pub fn selects_zero_divisor(all: &[Select], decls: &Decls) -> Option<Pos>
    ensures { result ≡ spec.selects_zero_divisor decls.now (selects all.now) }
{
    let mut found = None;
    let mut place = all.len();
    while place > 0 {
        place -= 1;
        found = earlier_place(select_zero_divisor(&all[place], decls), found);
    }
    found
}

#[cycle(divisor)]
fn select_zero_divisor(select: &Select, decls: &Decls) -> Option<Pos>
    ensures { result ≡ spec.select_zero_divisor decls.now select.now }
{
    match select {
        Select::Bit(_, index) => own_zero_divisor(index, decls),
        Select::Part(_, first, second) | Select::Indexed(_, first, second) => {
            let first = own_zero_divisor(first, decls);
            earlier_place(first, own_zero_divisor(second, decls))
        }
    }
}
