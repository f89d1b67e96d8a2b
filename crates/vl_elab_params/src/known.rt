//! What is known of parameters.
ghost use Rattle.std.specs.Prelude.{◌≡◌, ◌≤◌, ◌&&◌, [], Some, None, IfOk, is_none, is_some, if◌then◌else◌};
ghost use Rattle.vl_size.specs.Divisors as divisors;
ghost use Rattle.vl_size.specs.Divisors.{larger};
ghost use Rattle.vl_size.specs.Sign.{sign};
ghost use Rattle.vl_size.specs.Size.{size};
ghost use Rattle.vl_elab_spec.specs.Meanings as meanings;
ghost use Rattle.vl_elab_const.specs.Given.{known_or, value_given};
ghost use Rattle.vl_elab_params.specs.Entered as spec;
ghost use Rattle.vl_elab_params.specs.Known as known;

use crate::extents::{Extent, known_extent};
use fv_text::Memory;
use std::alloc::Global;
use vl_elab_const::Given;
use vl_elab_scope::{Names, known_expr, value_of};
use vl_size::{Context, Decls, self_size, sign_of, zero_divisor};
use vl_tree::{Expr, Parameter};

fn is_known(alloc: Global, expr: &Expr, names: &Names) -> Result<bool, Memory>
    ensures { IfOk result (λ b. b ≡ meanings.is_known names.now expr.now) }
{
    let value = value_of(alloc, expr, names)?;
    Ok(value.is_some())
}

/// Of an expression without names that is assigned to so many bits.
fn is_known_at(expr: &Expr, bits: u32, decls: &Decls) -> bool
    requires { bits ≤ 128 }
    ensures { result ≡ (is_some (size decls.now expr.now) && is_none (divisors.zero_divisor decls.now (record {
      size = larger (Some bits) (size decls.now expr.now);
      signed = sign decls.now expr.now;
    }) expr.now)) }
{
    match self_size(expr, decls) {
        None => false,
        Some(size) => {
            let context = Context {
                size: Some(bits.max(size)),
                signed: sign_of(expr, decls),
            };
            zero_divisor(expr, context, decls).is_none()
        }
    }
}

/// The same where no name is declared.
fn is_known_alone(alloc: Global, expr: &Expr, bits: u32) -> bool
    requires { bits ≤ 128 }
    ensures { result ≡ (is_some (size [] expr.now) && is_none (divisors.zero_divisor [] (record {
      size = larger (Some bits) (size [] expr.now);
      signed = sign [] expr.now;
    }) expr.now)) }
{
    is_known_at(expr, bits, &Decls::new(alloc))
}

fn is_known_assigned(alloc: Global, expr: &Expr, bits: u32, names: &Names) -> Result<bool, Memory>
    requires { bits ≤ 128 }
    ensures { IfOk result (λ b. b ≡ meanings.is_known_assigned names.now bits expr.now) }
{
    let expr = known_expr(alloc, expr, names)?;
    Ok(is_known_alone(alloc, &expr, bits))
}

fn is_known_value(
    alloc: Global,
    parameter: &Parameter,
    bits: u32,
    names: &Names,
) -> Result<bool, Memory>
    requires few { bits ≤ 128 }
    requires bits { bits ≡ meanings.declared_width names.now parameter.now.shape.range }
    ensures { IfOk result (λ b. b
        ≡ meanings.is_known_value names.now parameter.now.shape.range parameter.now.value) }
{
    if parameter.shape.range.is_none() {
        return is_known(alloc, &parameter.value, names);
    }
    is_known_assigned(alloc, &parameter.value, bits, names)
}

fn if_known(known: bool, selected: bool) -> Option<bool>
    ensures { result ≡ (if known then Some selected else None) }
{
    if known { Some(selected) } else { None }
}

/// It is `[width - 1 : 0]`.
fn may_be_selected(extent: Extent) -> bool
    ensures { result ≡ known.goes_down_to_0 extent.left extent.right }
{
    0 <= extent.left && extent.right <= 0 && 0 <= extent.right
}

/// A value that is given counts in place of the parameter's own.
fn is_known_or(
    alloc: Global,
    parameter: &Parameter,
    bits: u32,
    given: &Given,
    names: &Names,
) -> Result<bool, Memory>
    requires few { bits ≤ 128 }
    requires bits { bits ≡ meanings.declared_width names.now parameter.now.shape.range }
    ensures { IfOk result (λ b. b ≡ known_or (value_given given.now parameter.now.name)
        (meanings.is_known_value names.now parameter.now.shape.range parameter.now.value)) }
{
    match given.get(&parameter.name) {
        Some(value) => Ok(value.has_value),
        None => is_known_value(alloc, parameter, bits, names),
    }
}

fn with_extent(
    alloc: Global,
    parameter: &Parameter,
    extent: Extent,
    given: &Given,
    names: &Names,
) -> Result<Option<bool>, Memory>
    requires { known.known_extent names.now parameter.now.shape.range ≡ Some extent }
    ensures { IfOk result (λ o. o ≡ spec.selected_if_known (value_given given.now) names.now parameter.now) }
{
    let known = is_known_or(alloc, parameter, extent.bits, given, names)?;
    Ok(if_known(known, may_be_selected(extent)))
}

/// Whether a parameter may be selected from. None exactly where its value or its range isn't known; a value that is
/// given is known where it has one, and judged at the instance.
pub(crate) fn selected_if_known(
    alloc: Global,
    parameter: &Parameter,
    given: &Given,
    names: &Names,
) -> Result<Option<bool>, Memory>
    ensures { IfOk result (λ o. o ≡ spec.selected_if_known (value_given given.now) names.now parameter.now) }
{
    let extent = known_extent(alloc, &parameter.shape.range, names)?;
    match extent {
        None => Ok(None),
        Some(extent) => with_extent(alloc, parameter, extent, given, names),
    }
}
