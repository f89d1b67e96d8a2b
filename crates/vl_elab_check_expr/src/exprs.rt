//! Which refusal of an expression in its place is answered.
ghost use Rattle.std.specs.Prelude.{◌≡◌, ◌≤◌, IfOk, IfSome};
ghost use Rattle.vl_elab_spec.specs.Expressions as expressions;
ghost use Rattle.vl_elab_spec.specs.Refused.{lowest};

use crate::fault::{divided_by_zero, first_of};
use crate::judge::judge;
use fv_text::Memory;
use std::alloc::Global;
use vl_elab_scope::{Names, own_zero_divisor_of, zero_divisor_of};
use vl_elab_spec::ElabFault;
use vl_size::Context;
use vl_tree::Expr;

/// Of all refusals of an expression the one with the lowest number, and of one number the one at the earliest place.
/// None exactly where it isn't refused. Divisors that are 0 aren't among them. `fixed`: whether it has to be constant.
#[tactic(auto, using(crate::proofs::Lowest::same_fault))]
pub fn expr_fault(
    alloc: Global,
    expr: &Expr,
    fixed: bool,
    names: &Names,
) -> Result<Option<ElabFault>, Memory>
    ensures { IfOk result (λ g. g ≡ lowest (expressions.refusals names.now fixed expr.now)) }
{
    let found = judge(alloc, expr, fixed, names)?;
    Ok(found.fault)
}

/// The same with divisors that are 0, where the expression has the size and the sign of the context.
#[tactic(auto, using(crate::proofs::Lowest::lowest_parts))]
pub fn expr_fault_in(
    alloc: Global,
    expr: &Expr,
    fixed: bool,
    context: Context,
    names: &Names,
) -> Result<Option<ElabFault>, Memory>
    requires { IfSome context.size (λ w. w ≤ 128) }
    ensures { IfOk result (λ g. g ≡ lowest (expressions.expr_refusals names.now fixed context expr.now)) }
{
    let place = zero_divisor_of(alloc, expr, context, names)?;
    let own = expr_fault(alloc, expr, fixed, names)?;
    Ok(first_of(own, divided_by_zero(place)))
}

/// The same, where it has the size and the sign that it has by itself.
#[tactic(auto, using(crate::proofs::Lowest::lowest_parts))]
pub fn own_fault(
    alloc: Global,
    expr: &Expr,
    fixed: bool,
    names: &Names,
) -> Result<Option<ElabFault>, Memory>
    ensures { IfOk result (λ g. g ≡ lowest (expressions.own_refusals names.now fixed expr.now)) }
{
    let place = own_zero_divisor_of(alloc, expr, names)?;
    let own = expr_fault(alloc, expr, fixed, names)?;
    Ok(first_of(own, divided_by_zero(place)))
}
