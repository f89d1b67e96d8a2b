//! The values of parameters, refused or not.
ghost use Rattle.std.specs.Prelude.{◌≡◌, ◌≤◌, ◌||◌, [], Some, IfOk, List};
ghost use Rattle.fv_bits.specs.Bits.{as_int};
ghost use Rattle.vl_size.specs.Size as size_spec;
ghost use Rattle.vl_size.specs.Table.{span};
ghost use Rattle.vl_mean.specs.Constants as constants_spec;
ghost use Rattle.vl_mean.specs.Declarations as declarations;
ghost use Rattle.vl_mean.specs.Declarations.{Overrides};
ghost use Rattle.vl_mean.specs.Scopes.{Scope};
ghost use Rattle.vl_elab_spec.specs.Expressions.{known};
ghost use Rattle.vl_elab_spec.specs.Meanings.{declared_width};
ghost use Rattle.vl_elab_const.specs.Given as given_spec;
ghost use Rattle.vl_elab_const.specs.Numbers as spec;

use crate::given::Given;
use crate::number::{number_alone, own_alone, own_bound};
use fv_bits::{is_below_zero, low, magnitude};
use fv_text::Memory;
use std::alloc::Global;
use vl_elab_scope::{Names, known_expr};
use vl_mean::Const;
use vl_size::Own;
use vl_tree::{Expr, Parameter, Range, Shape};

/// How many bits a range has; as many as 128 where it has more.
#[tactic(auto, using(vl_mean::proofs::SelectLemmas::apart))]
fn bits_between(left: Own, right: Own) -> u32
    ensures { let l = as_int left.width left.signed left.number in
        let r = as_int right.width right.signed right.number in
        result ≡ constants_spec.width_in_range (span l r) }
{
    let m = magnitude(left.width, left.signed, left.number);
    let n = magnitude(right.width, right.signed, right.number);
    let below = is_below_zero(left.width, left.signed, left.number);
    let gap = if below == is_below_zero(right.width, right.signed, right.number) {
        m.max(n) - m.min(n)
    } else {
        m.saturating_add(n)
    };
    gap.min(127) as u32 + 1
}

fn bits_in(alloc: Global, range: &Range, numbers: &Names) -> Result<u32, Memory>
    ensures value { IfOk result (λ w. w
        ≡ constants_spec.width_in_range (declared_width numbers.now (Some range.now))) }
    ensures few { IfOk result (λ w. w ≤ 128) }
{
    let left = own_bound(alloc, &range.left, numbers)?;
    let right = own_bound(alloc, &range.right, numbers)?;
    Ok(bits_between(left, right))
}

/// The lowest bits of a number.
fn cut_to(width: u32, signed: bool, number: u128) -> Const
    ensures { result ≡ constants_spec.cut_to width signed number }
{
    let width = width.clamp(1, 128);
    Const {
        width,
        signed,
        value: low(width, number),
    }
}

fn is_signed(declared: bool, value: Own) -> bool
    ensures { result ≡ (declared || value.signed) }
{
    declared || value.signed
}

/// Without a range a parameter has the size of its value, and its sign unless it is declared `signed`.
fn with_own_size(alloc: Global, signed: bool, value: &Expr) -> Const
    ensures { let x = size_spec.operand_of [] size_spec.no_names value.now in
        result ≡ constants_spec.cut_to x.size (signed || x.sign) (size_spec.own x) }
{
    let own = own_alone(alloc, value);
    let signed = is_signed(signed, own);
    cut_to(own.width, signed, own.number)
}

/// With one its value is assigned to it.
fn assigned(
    alloc: Global,
    signed: bool,
    range: &Range,
    value: &Expr,
    numbers: &Names,
) -> Result<Const, Memory>
    ensures { IfOk result (λ c. c ≡ spec.number_in_range numbers.now signed
        (size_spec.operand_of [] size_spec.no_names value.now) (Some range.now)) }
{
    let bits = bits_in(alloc, range, numbers)?;
    let number = number_alone(alloc, value, bits);
    Ok(cut_to(bits, signed, number))
}

/// By an expression without names.
fn in_range(alloc: Global, shape: &Shape, value: &Expr, numbers: &Names) -> Result<Const, Memory>
    ensures { IfOk result (λ c. c ≡ spec.number_in_range numbers.now shape.now.signed
        (size_spec.operand_of [] size_spec.no_names value.now) shape.now.range) }
{
    match &shape.range {
        None => Ok(with_own_size(alloc, shape.signed, value)),
        Some(range) => assigned(alloc, shape.signed, range, value, numbers),
    }
}

fn own_value(alloc: Global, parameter: &Parameter, numbers: &Names) -> Result<Const, Memory>
    ensures { IfOk result (λ c. c ≡ spec.number_in_range numbers.now parameter.now.shape.signed
        (size_spec.operand_of [] size_spec.no_names (known numbers.now parameter.now.value))
        parameter.now.shape.range) }
{
    let value = known_expr(alloc, &parameter.value, numbers)?;
    in_range(alloc, &parameter.shape, &value, numbers)
}

fn number(
    alloc: Global,
    parameter: &Parameter,
    given: &Given,
    numbers: &Names,
) -> Result<Const, Memory>
    ensures { IfOk result (λ c. c
        ≡ spec.parameter_number numbers.now (given_spec.value_given given.now) parameter.now) }
{
    match given.get(&parameter.name) {
        None => own_value(alloc, parameter, numbers),
        Some(value) => in_range(alloc, &parameter.shape, &value.expr, numbers),
    }
}

/// The value that a parameter has, refused or not: the one that it is given, or else its own. `numbers`: the numbers
/// that constants have where it stands.
pub fn parameter_value(
    alloc: Global,
    parameter: &Parameter,
    given: &Given,
    numbers: &Names,
) -> Result<Const, Memory>
    ensures number { IfOk result (λ c. c
        ≡ spec.parameter_number numbers.now (given_spec.value_given given.now) parameter.now) }
    ensures value { IfOk result (λ c. (os : Overrides) (ss : List Scope)
        → given_spec.IsGiven (given_spec.value_given given.now) os → spec.HaveNumbers numbers.now ss
        → c ≡ declarations.parameter_value os ss parameter.now) }
{
    number(alloc, parameter, given, numbers)
}
