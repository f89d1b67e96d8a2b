//! The size and the sign that an expression has by itself, as names mean them.
ghost use Rattle.std.specs.Prelude.{◌≡◌, ◌≤◌, ◌&&◌, false, IfOk, IfSome};
ghost use Rattle.std.specs.Option.{option_copied};
ghost use Rattle.fv_text.specs.declared.pos.Pos.{Pos};
ghost use Rattle.vl_tree.specs.Expr as tree;
ghost use Rattle.vl_tree.specs.Expr.{whole};
ghost use Rattle.vl_size.specs.Divisors.{own_context as own_context_of};
ghost use Rattle.vl_size.specs.Sign.{sign_by};
ghost use Rattle.vl_size.specs.Way.{way};
ghost use Rattle.vl_elab_spec.specs.Expressions.{known};
ghost use Rattle.vl_elab_spec.specs.Meanings.{objects};
ghost use Rattle.vl_elab_scope.specs.Contexts as spec;
ghost use Rattle.vl_elab_scope.specs.Seen.{seen_or};

use crate::meaning::{Meaning, Object};
use crate::names::Names;
use crate::settle::known_expr;
use crate::tables::decls_of;
use fv_text::{Memory, Text};
use std::alloc::Global;
use vl_size::way::{Way, divides, keeps_size, size_by, way_of};
use vl_size::{Context, own_context};
use vl_tree::{BinaryOperator, Cast, Expr, ExprKind, UnaryOperator};

fn no_context() -> Context
    ensures { result ≡ spec.no_context }
{
    Context {
        size: None,
        signed: false,
    }
}

fn object_context(object: &Object) -> Context
    ensures value { result ≡ spec.object_context object.now.decl }
    ensures few { IfSome result.size (λ w. w ≤ 128) }
{
    if object.decl.words.is_none() {
        Context {
            size: Some(object.decl.width),
            signed: object.decl.signed,
        }
    } else {
        no_context()
    }
}

fn meant_context(meaning: Option<&Meaning>) -> Context
    ensures value { result ≡ spec.meant_context (seen_or (option_copied meaning.entry)) }
    ensures few { IfSome result.size (λ w. w ≤ 128) }
{
    match meaning {
        Some(Meaning::Constant(value, _)) => Context {
            size: Some(value.width),
            signed: value.signed,
        },
        Some(Meaning::Object(object)) => object_context(object),
        None => no_context(),
        Some(Meaning::LoopVariable | Meaning::Faulty) => no_context(),
        Some(Meaning::Shapeless | Meaning::Later) => no_context(),
    }
}

/// Of a name without selects.
fn name_context(names: &Names, text: &Text) -> Context
    ensures value { (p : Pos) → result
        ≡ own_context_of (objects names.now) (known names.now (tree.name p text.now whole)) }
    ensures few { IfSome result.size (λ w. w ≤ 128) }
{
    meant_context(names.meaning(text))
}

fn both(first: bool, second: bool) -> bool
    ensures { result ≡ (first && second) }
{
    first && second
}

fn unary_bits(operator: UnaryOperator, size: Option<u32>) -> Option<u32>
    requires { IfSome size (λ w. w ≤ 128) }
    ensures value { result ≡ spec.unary_bits operator size }
    ensures few { IfSome result (λ w. w ≤ 128) }
{
    let size = size?;
    Some(if keeps_size(operator) { size } else { 1 })
}

fn unary_context(operator: UnaryOperator, own: Context) -> Context
    requires { IfSome own.size (λ w. w ≤ 128) }
    ensures value { result ≡ spec.unary_context operator own }
    ensures few { IfSome result.size (λ w. w ≤ 128) }
{
    Context {
        size: unary_bits(operator, own.size),
        signed: both(keeps_size(operator), own.signed),
    }
}

fn binary_bits(operator: BinaryOperator, left: Option<u32>, right: Option<u32>) -> Option<u32>
    requires left { IfSome left (λ w. w ≤ 128) }
    requires right { IfSome right (λ w. w ≤ 128) }
    ensures value { result ≡ spec.binary_bits operator left right }
    ensures few { IfSome result (λ w. w ≤ 128) }
{
    let left = left?;
    let right = right?;
    Some(size_by(way_of(operator), left, right))
}

fn binary_sign(operator: BinaryOperator, left: bool, right: bool) -> bool
    ensures { result ≡ sign_by (way operator) left right }
{
    match way_of(operator) {
        Way::Larger => both(left, right),
        Way::Left => left,
        Way::One => false,
    }
}

/// Of an operation that is no division.
fn binary_context(operator: BinaryOperator, left: Context, right: Context) -> Context
    requires left { IfSome left.size (λ w. w ≤ 128) }
    requires right { IfSome right.size (λ w. w ≤ 128) }
    ensures value { result ≡ spec.binary_context operator left right }
    ensures few { IfSome result.size (λ w. w ≤ 128) }
{
    Context {
        size: binary_bits(operator, left.size, right.size),
        signed: binary_sign(operator, left.signed, right.signed),
    }
}

fn choice_bits(condition: Option<u32>, first: Option<u32>, second: Option<u32>) -> Option<u32>
    requires first { IfSome first (λ w. w ≤ 128) }
    requires second { IfSome second (λ w. w ≤ 128) }
    ensures value { result ≡ spec.choice_bits condition first second }
    ensures few { IfSome result (λ w. w ≤ 128) }
{
    let _condition = condition?;
    let first = first?;
    let second = second?;
    Some(first.max(second))
}

fn choice_context(condition: Context, first: Context, second: Context) -> Context
    requires first { IfSome first.size (λ w. w ≤ 128) }
    requires second { IfSome second.size (λ w. w ≤ 128) }
    ensures value { result ≡ spec.choice_context condition first second }
    ensures few { IfSome result.size (λ w. w ≤ 128) }
{
    Context {
        size: choice_bits(condition.size, first.size, second.size),
        signed: both(first.signed, second.signed),
    }
}

fn cast_context(cast: Cast, own: Context) -> Context
    ensures { result ≡ spec.cast_context cast own }
{
    Context {
        size: own.size,
        signed: matches!(cast, Cast::Signed),
    }
}

/// Over a table of the nets and variables that the expression names.
fn context_by_table(alloc: Global, expr: &Expr, names: &Names) -> Result<Context, Memory>
    ensures value { IfOk result (λ c. c ≡ own_context_of (objects names.now) (known names.now expr.now)) }
    ensures few { IfOk result (λ c. IfSome c.size (λ w. w ≤ 128)) }
{
    let expr = known_expr(alloc, expr, names)?;
    let decls = decls_of(alloc, &expr, names)?;
    Ok(own_context(&expr, &decls))
}

/// The size and the sign that the expression has by itself.
#[tactic(auto, using(vl_tree::specs::ExprFalls::parts_fall))]
pub fn context_of(alloc: Global, expr: &Expr, names: &Names) -> Result<Context, Memory>
    ensures value { IfOk result (λ c. c ≡ own_context_of (objects names.now) (known names.now expr.now)) }
    ensures few { IfOk result (λ c. IfSome c.size (λ w. w ≤ 128)) }
{
    match &expr.kind {
        ExprKind::Number(number) => Ok(Context {
            size: Some(number.width),
            signed: number.signed,
        }),
        ExprKind::Name(text, all) => match all.as_slice() {
            [] => Ok(name_context(names, text)),
            [_, ..] => context_by_table(alloc, expr, names),
        },
        ExprKind::Paren(inner) => context_of(alloc, inner, names),
        ExprKind::Unary(operator, operand) => {
            let own = context_of(alloc, operand, names)?;
            Ok(unary_context(*operator, own))
        }
        ExprKind::Binary(operator, left, right) => {
            if divides(*operator) {
                context_by_table(alloc, expr, names)
            } else {
                let left = context_of(alloc, left, names)?;
                let right = context_of(alloc, right, names)?;
                Ok(binary_context(*operator, left, right))
            }
        }
        ExprKind::Conditional(condition, first, second) => {
            let condition = context_of(alloc, condition, names)?;
            let first = context_of(alloc, first, names)?;
            let second = context_of(alloc, second, names)?;
            Ok(choice_context(condition, first, second))
        }
        ExprKind::Concat(_) | ExprKind::Repeat(_, _) => context_by_table(alloc, expr, names),
        ExprKind::Cast(cast, operand) => {
            let own = context_of(alloc, operand, names)?;
            Ok(cast_context(*cast, own))
        }
    }
}
