//! The constants of a scope, with their numbers.
ghost use Rattle.std.specs.Prelude.{◌≡◌, ◌++◌, ◌∷◌, [], ℕ, List, None, OnOk, drop, true, false};
ghost use Rattle.vl_tree.specs.Item.{items};
ghost use Rattle.vl_mean.specs.Cells.{contains_name};
ghost use Rattle.vl_mean.specs.Constants.{Constants};
ghost use Rattle.vl_mean.specs.Declarations as declarations;
ghost use Rattle.vl_mean.specs.Declarations.{header_parameters};
ghost use Rattle.vl_mean.specs.Walk.{parameter_names};
ghost use Rattle.vl_elab_spec.specs.Meanings as meanings;
ghost use Rattle.vl_elab_scope.specs.Seen.{innermost, with_name};
ghost use Rattle.vl_elab_const.specs.Given.{value_given};
ghost use Rattle.vl_elab_const.specs.Openable.{constant_names, item_constants, items_constants};
ghost use Rattle.vl_elab_flatten.specs.Levels as spec;

use fv_text::{Memory, Text};
use std::alloc::Global;
use vl_elab_const::{Given, parameter_value};
use vl_elab_draft::Scope;
use vl_elab_scope::{Meaning, Names};
use vl_mean::Const;
use vl_tree::{HeaderParameter, Item, ItemKind, Parameter, ParameterKind};

/// A number more in the innermost scope of the numbers.
pub(crate) fn add_number(
    alloc: Global,
    name: &Text,
    value: Const,
    numbers: &mut Names,
) -> Result<(), Memory>
    ensures { OnOk result (numbers.new
        ≡ with_name (innermost numbers.old) name.now (meanings.constant value true) ∷ drop 1 numbers.old) }
{
    let mut level = numbers.take(alloc);
    level.add(name.copied(alloc)?, Meaning::Constant(value, true))?;
    numbers.enter(level)
}

/// Of two of one name the first counts.
fn add_constant(
    alloc: Global,
    name: &Text,
    value: Const,
    scope: &mut Scope,
    numbers: &mut Names,
) -> Result<(), Memory>
    ensures { OnOk result ((path : List ℕ) (cs : Constants) (outer : List meanings.Names)
        → contains_name (constant_names cs) name.now ≡ false
        → spec.HasConstants path cs outer scope.old numbers.old
        → spec.HasConstants path (cs ++ (name.now, value) ∷ []) outer scope.new numbers.new) }
{
    let is_known = scope.constant(name).is_some();
    if is_known {
        return Ok(());
    }
    add_number(alloc, name, value, numbers)?;
    scope.add_constant(name.copied(alloc)?, value)
}

fn add_parameter(
    alloc: Global,
    parameter: &Parameter,
    given: &Given,
    scope: &mut Scope,
    numbers: &mut Names,
) -> Result<(), Memory>
    ensures { OnOk result (spec.Adds (value_given given.now)
        (λ os ss cs. declarations.with_parameters os ss cs (parameter.now ∷ [])) (parameter.now.name ∷ [])
        scope.old numbers.old scope.new numbers.new) }
{
    let value = parameter_value(alloc, parameter, given, numbers)?;
    add_constant(alloc, &parameter.name, value, scope, numbers)
}

fn add_parameters(
    alloc: Global,
    all: &[Parameter],
    given: &Given,
    scope: &mut Scope,
    numbers: &mut Names,
) -> Result<(), Memory>
    ensures { OnOk result (spec.Adds (value_given given.now)
        (λ os ss cs. declarations.with_parameters os ss cs all.now) (parameter_names all.now)
        scope.old numbers.old scope.new numbers.new) }
{
    for parameter in all {
        add_parameter(alloc, parameter, given, scope, numbers)?;
    }
    Ok(())
}

/// The parameters of a module's head.
pub(crate) fn add_header(
    alloc: Global,
    all: &[HeaderParameter],
    given: &Given,
    scope: &mut Scope,
    numbers: &mut Names,
) -> Result<(), Memory>
    ensures { OnOk result (spec.Adds (value_given given.now)
        (λ os ss cs. declarations.with_parameters os ss cs (header_parameters all.now))
        (parameter_names (header_parameters all.now)) scope.old numbers.old scope.new numbers.new) }
{
    for parameter in all {
        add_parameter(alloc, &parameter.parameter, given, scope, numbers)?;
    }
    Ok(())
}

/// A `localparam` is given nothing (IEEE 1364-2005, section 3.11.2).
fn add_declared(
    alloc: Global,
    kind: ParameterKind,
    all: &[Parameter],
    given: &Given,
    nothing: &Given,
    scope: &mut Scope,
    numbers: &mut Names,
) -> Result<(), Memory>
    requires { (name : List ℕ) → value_given nothing.now name ≡ None }
    ensures { OnOk result (spec.Adds (value_given given.now)
        (λ os ss cs. spec.with_declared kind os ss cs all.now) (parameter_names all.now)
        scope.old numbers.old scope.new numbers.new) }
{
    match kind {
        ParameterKind::Parameter => add_parameters(alloc, all, given, scope, numbers),
        ParameterKind::Localparam => add_parameters(alloc, all, nothing, scope, numbers),
    }
}

fn add_item(
    alloc: Global,
    item: &Item,
    given: &Given,
    nothing: &Given,
    scope: &mut Scope,
    numbers: &mut Names,
) -> Result<(), Memory>
    requires { (name : List ℕ) → value_given nothing.now name ≡ None }
    ensures { OnOk result (spec.Adds (value_given given.now)
        (λ os ss cs. declarations.with_item_parameters os ss cs item.now) (item_constants item.now)
        scope.old numbers.old scope.new numbers.new) }
{
    match &item.kind {
        ItemKind::Parameter(kind, all) => {
            add_declared(alloc, *kind, all.as_slice(), given, nothing, scope, numbers)
        }
        ItemKind::Declaration(_) | ItemKind::Integer(_) | ItemKind::Genvar(_) => Ok(()),
        ItemKind::Assign(_) | ItemKind::Always(_, _) | ItemKind::Initial(_) => Ok(()),
        ItemKind::Instance(_) | ItemKind::Generate(_) | ItemKind::For(_, _) => Ok(()),
        ItemKind::If(_, _, None) | ItemKind::If(_, _, Some(_)) => Ok(()),
    }
}

/// The parameters of items, in order.
pub(crate) fn add_items(
    alloc: Global,
    all: &[Item],
    given: &Given,
    nothing: &Given,
    scope: &mut Scope,
    numbers: &mut Names,
) -> Result<(), Memory>
    requires { (name : List ℕ) → value_given nothing.now name ≡ None }
    ensures { OnOk result (spec.Adds (value_given given.now)
        (λ os ss cs. declarations.with_items_parameters os ss cs (items all.now)) (items_constants (items all.now))
        scope.old numbers.old scope.new numbers.new) }
{
    for item in all {
        add_item(alloc, item, given, nothing, scope, numbers)?;
    }
    Ok(())
}
