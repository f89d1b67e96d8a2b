//! Where parameters are refused.
ghost use Rattle.std.specs.Prelude.{◌≡◌, ◌≤◌, [], true, IfOk, IfSome, if◌then◌else◌};
ghost use Rattle.std.specs.Option.{option_copied};
ghost use Rattle.vl_elab_spec.specs.Expressions.{expr_refusals};
ghost use Rattle.vl_elab_spec.specs.Items as items;
ghost use Rattle.vl_elab_spec.specs.Refused.{lowest};
ghost use Rattle.vl_elab_check_item.specs.ItemParts as spec;

use crate::ranges::{known_width, range_fault, width_fault};
use fv_text::Memory;
use std::alloc::Global;
use vl_elab_check_expr::{expr_fault, expr_fault_in, first_of, parameter_if, twice_if};
use vl_elab_check_stmt::assigned_in;
use vl_elab_scope::{Names, context_of};
use vl_elab_spec::ElabFault;
use vl_size::Context;
use vl_tree::{Connection, Expr, Parameter, Range};

/// A value that is given to a parameter is assigned to its range, where it has one, which is read in the scopes within.
fn given_context(
    alloc: Global,
    range: &Option<Range>,
    value: &Expr,
    names: &Names,
    inner: &Names,
) -> Result<Context, Memory>
    ensures value { IfOk result (λ c. c ≡ items.given_context names.now inner.now range.now value.now) }
    ensures few { IfOk result (λ c. IfSome c.size (λ w. w ≤ 128)) }
{
    if range.is_none() {
        return context_of(alloc, value, names);
    }
    let width = known_width(alloc, range, inner)?;
    match width {
        None => context_of(alloc, value, names),
        Some(bits) => assigned_in(alloc, Some(bits), value, names),
    }
}

/// So is a parameter's own value.
#[tactic(auto, using(crate::proofs::Contexts::contexts))]
fn value_context(
    alloc: Global,
    range: &Option<Range>,
    value: &Expr,
    names: &Names,
) -> Result<Context, Memory>
    ensures value { IfOk result (λ c. c ≡ items.value_context names.now range.now value.now) }
    ensures few { IfOk result (λ c. IfSome c.size (λ w. w ≤ 128)) }
{
    let context = given_context(alloc, range, value, names, names)?;
    Ok(context)
}

/// A value that is given at the instance is judged there.
fn unless_given(
    alloc: Global,
    is_given: bool,
    parameter: &Parameter,
    names: &Names,
) -> Result<Option<ElabFault>, Memory>
    ensures { IfOk result (λ g. g ≡ lowest (if is_given then []
        else expr_refusals names.now true (items.value_context names.now parameter.now.shape.range parameter.now.value)
        parameter.now.value)) }
{
    if is_given {
        return Ok(None);
    }
    let context = value_context(alloc, &parameter.shape.range, &parameter.value, names)?;
    expr_fault_in(alloc, &parameter.value, true, context, names)
}

/// Of all refusals of a parameter the one with the lowest number, and of one number the one at the earliest place.
/// None exactly where it isn't refused. `is_twice`: whether its name stands before it in its scope; `is_given`:
/// whether the instance gives it a value, which is judged there.
#[tactic(auto, using(vl_elab_check_expr::proofs::Lowest::lowest_parts))]
pub fn parameter_fault(
    alloc: Global,
    parameter: &Parameter,
    is_twice: bool,
    is_given: bool,
    names: &Names,
) -> Result<Option<ElabFault>, Memory>
    ensures { IfOk result (λ g. g ≡ lowest (spec.parameter_parts names.now is_twice is_given parameter.now)) }
{
    let twice = twice_if(alloc, is_twice, &parameter.name, parameter.pos)?;
    let range = range_fault(alloc, &parameter.shape.range, names)?;
    let width = width_fault(alloc, parameter.pos, &parameter.shape.range, names)?;
    let value = unless_given(alloc, is_given, parameter, names)?;
    Ok(first_of(first_of(first_of(twice, range), width), value))
}

/// The value that an instance gives to a parameter, or to none.
fn override_value(
    alloc: Global,
    value: &Option<Expr>,
    parameter: Option<&Parameter>,
    names: &Names,
    inner: &Names,
) -> Result<Option<ElabFault>, Memory>
    ensures { IfOk result (λ g. g ≡ lowest (items.override_value names.now inner.now (option_copied parameter.entry)
        value.now)) }
{
    match value {
        None => Ok(None),
        Some(value) => match parameter {
            None => expr_fault(alloc, value, true, names),
            Some(parameter) => {
                let context = given_context(alloc, &parameter.shape.range, value, names, inner)?;
                expr_fault_in(alloc, value, true, context, names)
            }
        },
    }
}

/// Of all refusals of what an instance gives to a parameter of its module, or to none, the one with the lowest number,
/// and of one number the one at the earliest place. None exactly where it isn't refused. `is_twice`: whether the name
/// stands before it; `inner`: what names mean in the module.
#[tactic(auto, using(vl_elab_check_expr::proofs::Lowest::lowest_parts))]
pub fn override_fault(
    alloc: Global,
    given: &Connection,
    is_twice: bool,
    parameter: Option<&Parameter>,
    names: &Names,
    inner: &Names,
) -> Result<Option<ElabFault>, Memory>
    ensures { IfOk result (λ g. g ≡ lowest (spec.override_parts names.now inner.now is_twice
        (option_copied parameter.entry) given.now)) }
{
    let twice = twice_if(alloc, is_twice, &given.port, given.pos)?;
    let missing = parameter_if(alloc, parameter.is_none(), &given.port, given.pos)?;
    let value = override_value(alloc, &given.value, parameter, names, inner)?;
    Ok(first_of(first_of(twice, missing), value))
}
