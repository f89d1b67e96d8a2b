//! Where connections to ports are refused.
ghost use Rattle.std.specs.Prelude.{◌≡◌, ◌≤◌, ◌++◌, ◌∷◌, [], true, false, not, Some, IfOk, IfSome, if◌then◌else◌};
ghost use Rattle.std.specs.Option.{option_copied};
ghost use Rattle.vl_mean.specs.Parts as parts;
ghost use Rattle.vl_mean.specs.Scopes as scopes;
ghost use Rattle.vl_mean.specs.Walk.{Place};
ghost use Rattle.vl_elab_spec.specs.declared.elab_fault.ElabFault.TheVariants as f;
ghost use Rattle.vl_elab_spec.specs.Expressions.{expr_refusals, refused_if, refusals};
ghost use Rattle.vl_elab_spec.specs.Items as items;
ghost use Rattle.vl_elab_spec.specs.Meanings as meanings;
ghost use Rattle.vl_elab_spec.specs.Refused.{lowest};
ghost use Rattle.vl_elab_spec.specs.Statements.{target_refusals};
ghost use Rattle.vl_elab_scope.specs.Seen.{seen};

use crate::varying::is_net_target;
use fv_text::{Memory, Pos, Text};
use std::alloc::Global;
use vl_elab_check_expr::{expr_fault, expr_fault_in, first_of, twice_if};
use vl_elab_check_stmt::{assigned_in, target_fault, target_of};
use vl_elab_scope::{Meaning, Names, context_of};
use vl_elab_spec::ElabFault;
use vl_size::Context;
use vl_tree::{Connection, Direction, Expr, FullPort, Lval};

fn object_width(meaning: &Meaning) -> Option<u64>
    ensures { result ≡ items.object_width (seen meaning.now) }
{
    match meaning {
        Meaning::Object(object) => Some(u64::from(object.decl.width)),
        Meaning::Constant(_, _)
        | Meaning::LoopVariable
        | Meaning::Faulty
        | Meaning::Shapeless
        | Meaning::Later => None,
    }
}

/// The width of a port, where it is known.
fn port_width(text: &Text, inner: &Names) -> Option<u64>
    ensures { result ≡ items.object_width (meanings.meaning_in inner.now text.now) }
{
    match inner.meaning(text) {
        None => None,
        Some(meaning) => object_width(meaning),
    }
}

/// A connection is an equation with the port.
fn joined_context(
    alloc: Global,
    width: Option<u64>,
    value: &Expr,
    names: &Names,
) -> Result<Context, Memory>
    ensures value { IfOk result (λ c. c ≡ items.joined_context names.now width value.now) }
    ensures few { IfOk result (λ c. IfSome c.size (λ w. w ≤ 128)) }
{
    match width {
        None => context_of(alloc, value, names),
        Some(bits) => assigned_in(alloc, Some(bits), value, names),
    }
}

fn in_port(
    alloc: Global,
    width: Option<u64>,
    value: &Expr,
    names: &Names,
) -> Result<Option<ElabFault>, Memory>
    ensures { IfOk result (λ g. g
        ≡ lowest (expr_refusals names.now false (items.joined_context names.now width value.now) value.now)) }
{
    let context = joined_context(alloc, width, value, names)?;
    expr_fault_in(alloc, value, false, context, names)
}

/// What an input is joined to, unless it is the clock by its plain name.
fn input_fault(
    alloc: Global,
    port: &FullPort,
    value: &Expr,
    is_clock: bool,
    names: &Names,
    inner: &Names,
) -> Result<Option<ElabFault>, Memory>
    ensures { IfOk result (λ g. g ≡ lowest (if is_clock then [] else expr_refusals names.now false
        (items.joined_context names.now (items.object_width (meanings.meaning_in inner.now port.now.name)) value.now)
        value.now)) }
{
    if is_clock {
        return Ok(None);
    }
    in_port(alloc, port_width(&port.name, inner), value, names)
}

fn port_fault(alloc: Global, text: &Text, pos: Pos) -> Result<ElabFault, Memory>
    ensures { IfOk result (λ g. g ≡ f.Port text.now pos) }
{
    Ok(ElabFault::Port(text.copied(alloc)?, pos))
}

/// What isn't a net, a constant part of one, or such joined, where the test says so.
fn port_if(alloc: Global, test: bool, text: &Text, pos: Pos) -> Result<Option<ElabFault>, Memory>
    ensures { IfOk result (λ g. g ≡ lowest (refused_if test (f.Port text.now pos))) }
{
    if !test {
        return Ok(None);
    }
    Ok(Some(port_fault(alloc, text, pos)?))
}

/// What isn't a target, and the connection itself.
#[tactic(auto, using(vl_elab_check_expr::proofs::Lowest::lowest_parts))]
fn wrong_fault(
    alloc: Global,
    given: &Connection,
    value: &Expr,
    names: &Names,
) -> Result<Option<ElabFault>, Memory>
    ensures { IfOk result (λ g. g ≡ lowest (refusals names.now false value.now
        ++ f.Port given.now.port given.now.pos ∷ [])) }
{
    let own = expr_fault(alloc, value, false, names)?;
    let port = port_fault(alloc, &given.port, given.pos)?;
    Ok(first_of(own, Some(port)))
}

#[tactic(auto, using(vl_elab_check_expr::proofs::Lowest::lowest_parts))]
fn net_fault(
    alloc: Global,
    given: &Connection,
    target: &Lval,
    names: &Names,
) -> Result<Option<ElabFault>, Memory>
    ensures { IfOk result (λ g. g
        ≡ lowest (refused_if (not (items.is_net_target names.now target.now)) (f.Port given.now.port given.now.pos)
        ++ target_refusals names.now true true target.now)) }
{
    let wrong = port_if(alloc, !is_net_target(target, names), &given.port, given.pos)?;
    let own = target_fault(alloc, target, true, true, names)?;
    Ok(first_of(wrong, own))
}

/// What an output is joined to: a net by itself, a constant part of one, or such joined.
fn output_fault(
    alloc: Global,
    given: &Connection,
    value: &Expr,
    names: &Names,
) -> Result<Option<ElabFault>, Memory>
    ensures { IfOk result (λ g. g ≡ lowest (items.output_target names.now given.now.port given.now.pos value.now
        (parts.target_of value.now))) }
{
    let target = target_of(alloc, value)?;
    match target {
        None => wrong_fault(alloc, given, value, names),
        Some(target) => net_fault(alloc, given, &target, names),
    }
}

/// What is joined to a port.
fn value_fault(
    alloc: Global,
    given: &Connection,
    port: &FullPort,
    value: &Expr,
    is_clock: bool,
    names: &Names,
    inner: &Names,
) -> Result<Option<ElabFault>, Memory>
    ensures { IfOk result (λ g. (at : Place) → scopes.is_clock at.scopes (Some value.now) ≡ is_clock
        → g ≡ lowest (items.joined_value at names.now inner.now port.now port.now.direction given.now value.now)) }
{
    match port.direction {
        Direction::Input => input_fault(alloc, port, value, is_clock, names, inner),
        Direction::Output => output_fault(alloc, given, value, names),
    }
}

/// What is joined to a port, or to none.
fn joined_fault(
    alloc: Global,
    given: &Connection,
    port: Option<&FullPort>,
    is_clock: bool,
    names: &Names,
    inner: &Names,
) -> Result<Option<ElabFault>, Memory>
    ensures { IfOk result (λ g. (at : Place) → scopes.is_clock at.scopes given.now.value ≡ is_clock
        → g ≡ lowest (items.joined_refusals at names.now inner.now (option_copied port.entry) given.now
        given.now.value)) }
{
    match &given.value {
        None => match port {
            None => Ok(Some(port_fault(alloc, &given.port, given.pos)?)),
            Some(_) => Ok(None),
        },
        Some(value) => match port {
            None => wrong_fault(alloc, given, value, names),
            Some(port) => value_fault(alloc, given, port, value, is_clock, names, inner),
        },
    }
}

/// Of all refusals of what an instance joins to a port of its module, or to none, the one with the lowest number, and
/// of one number the one at the earliest place. None exactly where it isn't refused. `is_twice`: whether the name
/// stands before it; `is_clock`: whether it is the clock by its plain name; `inner`: what names mean in the module.
pub fn connection_fault(
    alloc: Global,
    given: &Connection,
    is_twice: bool,
    port: Option<&FullPort>,
    is_clock: bool,
    names: &Names,
    inner: &Names,
) -> Result<Option<ElabFault>, Memory>
    ensures { IfOk result (λ g. (at : Place) → scopes.is_clock at.scopes given.now.value ≡ is_clock
        → g ≡ lowest (refused_if is_twice (f.Twice given.now.port given.now.pos)
        ++ items.joined_refusals at names.now inner.now (option_copied port.entry) given.now given.now.value)) }
{
    let twice = twice_if(alloc, is_twice, &given.port, given.pos)?;
    let own = joined_fault(alloc, given, port, is_clock, names, inner)?;
    Ok(first_of(twice, own))
}
