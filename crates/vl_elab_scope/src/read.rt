//! Expressions over what names mean: their values, and their divisors that are 0.
ghost use Rattle.std.specs.Prelude.{◌≡◌, ◌≤◌, [], Some, IfOk, IfSome, is_some};
ghost use Rattle.fv_bits.specs.Bits.{as_int};
ghost use Rattle.vl_size.specs.Divisors as divisors;
ghost use Rattle.vl_size.specs.Sign.{sign};
ghost use Rattle.vl_size.specs.Size as size_spec;
ghost use Rattle.vl_mean.specs.Env.{cells_of};
ghost use Rattle.vl_elab_spec.specs.Expressions.{known};
ghost use Rattle.vl_elab_spec.specs.Meanings.{bound, is_known, objects};

use crate::divisions::has_division;
use crate::names::Names;
use crate::settle::known_expr;
use crate::tables::decls_of;
use fv_text::{Memory, Pos};
use std::alloc::Global;
use vl_mean::{Env, value};
use vl_size::{Context, Decls, Own, own_zero_divisor, sign_of, size_of, zero_divisor};
use vl_tree::Expr;

/// Where a quotient or a remainder stands in it.
fn divisor_in(
    alloc: Global,
    expr: &Expr,
    context: Context,
    names: &Names,
) -> Result<Option<Pos>, Memory>
    requires { IfSome context.size (λ w. w ≤ 128) }
    ensures { IfOk result (λ p. p ≡ divisors.zero_divisor (objects names.now) context (known names.now expr.now)) }
{
    let expr = known_expr(alloc, expr, names)?;
    let decls = decls_of(alloc, &expr, names)?;
    Ok(zero_divisor(&expr, context, &decls))
}

/// The earliest division by 0 in the expression, which has the size and the sign of the context.
pub fn zero_divisor_of(
    alloc: Global,
    expr: &Expr,
    context: Context,
    names: &Names,
) -> Result<Option<Pos>, Memory>
    requires { IfSome context.size (λ w. w ≤ 128) }
    ensures { IfOk result (λ p. p ≡ divisors.zero_divisor (objects names.now) context (known names.now expr.now)) }
{
    if has_division(expr) {
        divisor_in(alloc, expr, context, names)
    } else {
        Ok(None)
    }
}

/// Where a quotient or a remainder stands in it.
fn own_divisor_in(alloc: Global, expr: &Expr, names: &Names) -> Result<Option<Pos>, Memory>
    ensures { IfOk result (λ p. p ≡ divisors.own_zero_divisor (objects names.now) (known names.now expr.now)) }
{
    let expr = known_expr(alloc, expr, names)?;
    let decls = decls_of(alloc, &expr, names)?;
    Ok(own_zero_divisor(&expr, &decls))
}

/// The earliest division by 0 in the expression, which has the size and the sign that it has by itself; at the
/// division's first token.
pub fn own_zero_divisor_of(alloc: Global, expr: &Expr, names: &Names) -> Result<Option<Pos>, Memory>
    ensures { IfOk result (λ p. p ≡ divisors.own_zero_divisor (objects names.now) (known names.now expr.now)) }
{
    if has_division(expr) {
        own_divisor_in(alloc, expr, names)
    } else {
        Ok(None)
    }
}

/// No names.
fn no_names(alloc: Global) -> Env
    ensures decls { result.decls ≡ [] }
    ensures numbers { cells_of result ≡ size_spec.no_names }
{
    Env::new(alloc, Decls::new(alloc))
}

fn own_at(expr: &Expr, width: u32, env: &Env) -> Own
    requires { width ≤ 128 }
    ensures width { result.width ≡ width }
    ensures signed { result.signed ≡ sign env.now.decls expr.now }
    ensures number { result.number
        ≡ size_spec.value env.now.decls (cells_of env.now) result.width result.signed expr.now }
{
    let signed = sign_of(expr, env.decls());
    Own {
        width,
        signed,
        number: value(expr, width, signed, env),
    }
}

/// At the size and the sign that the expression has by itself. None exactly where it has no size.
fn own_value(expr: &Expr, env: &Env) -> Option<Own>
    ensures known { is_some result ≡ is_some (divisors.valid_size env.now.decls expr.now) }
    ensures width { IfSome result (λ own. Some own.width ≡ divisors.valid_size env.now.decls expr.now) }
    ensures signed { IfSome result (λ own. own.signed ≡ sign env.now.decls expr.now) }
    ensures number { IfSome result (λ own. own.number
        ≡ size_spec.value env.now.decls (cells_of env.now) own.width own.signed expr.now) }
{
    match size_of(expr, env.decls()) {
        None => None,
        Some(width) => Some(own_at(expr, width, env)),
    }
}

/// The value of the expression by itself. None exactly where it isn't a constant.
pub fn value_of(alloc: Global, expr: &Expr, names: &Names) -> Result<Option<Own>, Memory>
    ensures known { IfOk result (λ v. is_some v ≡ is_known names.now expr.now) }
    ensures value { IfOk result (λ v. IfSome v (λ own. as_int own.width own.signed own.number
        ≡ bound names.now expr.now)) }
{
    let expr = known_expr(alloc, expr, names)?;
    Ok(own_value(&expr, &no_names(alloc)))
}
