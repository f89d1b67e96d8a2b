//! Numbers of expressions over constants, refused or not.
ghost use Rattle.std.specs.Prelude.{◌≡◌, ◌≤◌, [], max, true, Some, None, IfOk, if◌then◌else◌};
ghost use Rattle.fv_bits.specs.Bits.{as_int};
ghost use Rattle.vl_size.specs.Sign.{sign};
ghost use Rattle.vl_size.specs.Size as size_spec;
ghost use Rattle.vl_mean.specs.Constants as constants_spec;
ghost use Rattle.vl_mean.specs.Env.{cells_of};
ghost use Rattle.vl_elab_spec.specs.Meanings.{bound, constants};
ghost use Rattle.vl_elab_const.specs.Numbers as spec;

use crate::operation::operation_number;
use fv_bits::low;
use fv_text::Memory;
use std::alloc::Global;
use vl_elab_scope::{Names, known_expr};
use vl_mean::{Const, Env, value};
use vl_size::{Decls, Own, self_size, sign_of};
use vl_tree::{Expr, LoopHead};

/// Without a size it has none, and the number 0.
fn size_or_none(expr: &Expr, env: &Env) -> u32
    ensures size { result ≡ size_spec.or_none (size_spec.size env.now.decls expr.now) }
    ensures few { result ≤ 128 }
{
    match self_size(expr, env.decls()) {
        None => 0,
        Some(size) => size,
    }
}

/// In a context of so many bits, or in its own where that is larger.
fn number_at(expr: &Expr, least: u32, env: &Env) -> u128
    requires { least ≤ 128 }
    ensures { let x = size_spec.operand_of env.now.decls (cells_of env.now) expr.now in
        result ≡ x.at (max least x.size) x.sign }
{
    let size = size_or_none(expr, env);
    value(expr, size.max(least), sign_of(expr, env.decls()), env)
}

/// In its own context.
fn own_number(expr: &Expr, env: &Env) -> Own
    ensures width { result.width ≡ size_spec.or_none (size_spec.size env.now.decls expr.now) }
    ensures signed { result.signed ≡ sign env.now.decls expr.now }
    ensures number { result.number ≡ size_spec.own (size_spec.operand_of env.now.decls (cells_of env.now) expr.now) }
{
    let width = size_or_none(expr, env);
    let signed = sign_of(expr, env.decls());
    Own {
        width,
        signed,
        number: value(expr, width, signed, env),
    }
}

/// No names.
fn no_names(alloc: Global) -> Env
    ensures decls { result.decls ≡ [] }
    ensures numbers { cells_of result ≡ size_spec.no_names }
{
    Env::new(alloc, Decls::new(alloc))
}

/// Without names, in a context of so many bits, or in its own where that is larger.
pub(crate) fn number_alone(alloc: Global, expr: &Expr, least: u32) -> u128
    requires { least ≤ 128 }
    ensures { let x = size_spec.operand_of [] size_spec.no_names expr.now in
        result ≡ x.at (max least x.size) x.sign }
{
    number_at(expr, least, &no_names(alloc))
}

/// Without names, in its own context.
pub(crate) fn own_alone(alloc: Global, expr: &Expr) -> Own
    ensures width { result.width ≡ size_spec.or_none (size_spec.size [] expr.now) }
    ensures signed { result.signed ≡ sign [] expr.now }
    ensures number { result.number ≡ size_spec.own (size_spec.operand_of [] size_spec.no_names expr.now) }
{
    own_number(expr, &no_names(alloc))
}

/// A bound of a range with its own size and sign, where constants have these numbers, refused or not.
pub fn own_bound(alloc: Global, expr: &Expr, numbers: &Names) -> Result<Own, Memory>
    ensures { IfOk result (λ own. as_int own.width own.signed own.number ≡ bound numbers.now expr.now) }
{
    let expr = known_expr(alloc, expr, numbers)?;
    Ok(own_alone(alloc, &expr))
}

/// Over a copy with numbers in place of constants.
fn number_by_copy(alloc: Global, expr: &Expr, least: u32, numbers: &Names) -> Result<u128, Memory>
    requires { least ≤ 128 }
    ensures { IfOk result (λ n. let x = constants_spec.constant_operand (constants numbers.now) expr.now in
        n ≡ x.at (max least x.size) x.sign) }
{
    let expr = known_expr(alloc, expr, numbers)?;
    Ok(number_alone(alloc, &expr, least))
}

/// The same of an expression over constants.
fn number_in(alloc: Global, expr: &Expr, least: u32, numbers: &Names) -> Result<u128, Memory>
    requires { least ≤ 128 }
    ensures { IfOk result (λ n. let x = constants_spec.constant_operand (constants numbers.now) expr.now in
        n ≡ x.at (max least x.size) x.sign) }
{
    match operation_number(expr, least, numbers) {
        None => number_by_copy(alloc, expr, least, numbers),
        Some(number) => Ok(number),
    }
}

/// Whether the expression isn't 0, with the numbers that constants have by the definitions, refused or not.
pub fn is_true_in(alloc: Global, expr: &Expr, numbers: &Names) -> Result<bool, Memory>
    ensures { IfOk result (λ b. b ≡ spec.holds numbers.now expr.now) }
{
    let number = number_in(alloc, expr, 0, numbers)?;
    Ok(number != 0)
}

/// A number with 32 signed bits.
fn genvar_const(number: u128) -> Const
    ensures { result ≡ constants_spec.cut_to 32 true number }
{
    Const {
        width: 32,
        signed: true,
        value: low(32, number),
    }
}

/// The value that a genvar has once the expression is assigned to it: at 32 bits at least, and then cut to 32 signed
/// bits.
pub fn genvar_value(alloc: Global, expr: &Expr, numbers: &Names) -> Result<Const, Memory>
    ensures { IfOk result (λ c. c ≡ spec.genvar_number numbers.now expr.now) }
{
    let number = number_in(alloc, expr, 32, numbers)?;
    Ok(genvar_const(number))
}

/// In the scope of a turn of a generate loop, the value of the turn behind it. None exactly where this one doesn't
/// begin, as its condition doesn't hold (IEEE 1364-2005, section 12.4.1).
pub fn value_in_turn(
    alloc: Global,
    head: &LoopHead,
    numbers: &Names,
) -> Result<Option<Const>, Memory>
    ensures { IfOk result (λ c. c ≡ (if spec.holds numbers.now head.now.condition
        then Some (spec.genvar_number numbers.now head.now.next) else None)) }
{
    let goes_on = is_true_in(alloc, &head.condition, numbers)?;
    if !goes_on {
        return Ok(None);
    }
    Ok(Some(genvar_value(alloc, &head.next, numbers)?))
}
