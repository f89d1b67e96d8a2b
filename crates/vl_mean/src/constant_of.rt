ghost use Rattle.std.specs.Prelude.{◌≡◌, ◌≤◌, [], Some, None, IfOk, IfErr};
ghost use Rattle.vl_size.specs.Divisors.{valid_size};
ghost use Rattle.vl_size.specs.Sign.{sign};
ghost use Rattle.vl_size.specs.Size.{value, no_names};
ghost use Rattle.vl_mean.specs.Constants.{settled};
ghost use Rattle.vl_mean.specs.ConstantFaults.{UnlessMemory, first_fault as fault_of};
ghost use Rattle.vl_mean.specs.Env.{cells_of};
ghost use Rattle.vl_mean.specs.Params as params_spec;

use crate::const_fault::ConstFault;
use crate::const_number::Const;
use crate::env::Env;
use crate::evaluate::value as value_of;
use crate::first_fault::first_fault;
use crate::params::Params;
use crate::settle::settled;
use std::alloc::Global;
use vl_size::{Decls, sign_of, size_of};
use vl_tree::Expr;

/// The value of an expression in which each name is that of a constant, at its own size and sign (IEEE 1364-2005,
/// section 4.2.1). It is refused exactly where it has no size by itself, with the earliest fault in it.
pub fn constant(alloc: Global, expr: &Expr, params: &Params) -> Result<Const, ConstFault>
    ensures size { IfOk result (λ c. Some c.width
        ≡ valid_size [] (settled (params_spec.constant params.now) expr.now)) }
    ensures sign { IfOk result (λ c. c.signed ≡ sign [] (settled (params_spec.constant params.now) expr.now)) }
    ensures value { IfOk result (λ c. c.value
        ≡ value [] no_names c.width c.signed (settled (params_spec.constant params.now) expr.now)) }
    ensures refused { IfErr result (λ f. UnlessMemory f
        (valid_size [] (settled (params_spec.constant params.now) expr.now) ≡ None)) }
    ensures faultless { IfOk result (λ c. fault_of (params_spec.constant params.now) [] no_names
        (settled (params_spec.constant params.now) expr.now) ≡ None) }
    ensures fault { IfErr result (λ f. UnlessMemory f
        (fault_of (params_spec.constant params.now) [] no_names (settled (params_spec.constant params.now) expr.now)
        ≡ Some f)) }
{
    let expr = settled(alloc, expr, params)?;
    let env = Env::new(alloc, Decls::new(alloc));
    match size_of(&expr, env.decls()) {
        Some(width) => Ok(const_of(&expr, width, &env)),
        None => Err(refusal(&expr, params, &env)),
    }
}

/// The value at the expression's own size and sign.
fn const_of(expr: &Expr, width: u32, env: &Env) -> Const
    requires some { 1 ≤ width }
    requires few { width ≤ 128 }
    ensures width { result.width ≡ width }
    ensures signed { result.signed ≡ sign env.now.decls expr.now }
    ensures value { result.value ≡ value env.now.decls (cells_of env.now) width
        (sign env.now.decls expr.now) expr.now }
{
    let signed = sign_of(expr, env.decls());
    let value = value_of(expr, width, signed, env);
    Const {
        width,
        signed,
        value,
    }
}

/// The fault of what has no size.
fn refusal(expr: &Expr, params: &Params, env: &Env) -> ConstFault
    requires no_decls { env.now.decls ≡ [] }
    requires no_values { cells_of env.now ≡ no_names }
    requires refused { valid_size [] expr.now ≡ None }
    ensures { fault_of (params_spec.constant params.now) [] no_names expr.now ≡ Some result }
{
    match first_fault(expr, params, env) {
        None => unreachable!(),
        Some(fault) => fault,
    }
}
