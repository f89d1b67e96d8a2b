//! Parameters, one behind the other.
ghost use Rattle.std.specs.Prelude.{◌≡◌, ◌∷◌, [], ℕ, List, None, OnOk, drop};
ghost use Rattle.vl_tree.specs.Item.{items};
ghost use Rattle.vl_mean.specs.Declarations.{header_parameters, with_constants, Overrides};
ghost use Rattle.vl_mean.specs.Scopes.{Scope};
ghost use Rattle.vl_elab_spec.specs.Meanings.{Names as Scoped, all_later};
ghost use Rattle.vl_elab_scope.specs.Seen.{seen, innermost, IsNamed};
ghost use Rattle.vl_elab_scope.specs.Alike.{Alike};
ghost use Rattle.vl_elab_const.specs.Given.{value_given, IsGiven};
ghost use Rattle.vl_elab_const.specs.Numbers.{HaveNumbers};
ghost use Rattle.vl_elab_params.specs.Among as among;
ghost use Rattle.vl_elab_params.specs.Entered as spec;
ghost use Rattle.vl_elab_params.specs.Own.{AreBehind, AreOwn};

use crate::behind::names_behind;
use crate::known::selected_if_known;
use fv_text::{Memory, Text};
use std::alloc::Global;
use vl_elab_const::{Given, parameter_value};
use vl_elab_scope::{Level, Meaning, Names};
use vl_mean::Const;
use vl_tree::{HeaderParameter, Item, ItemKind, Parameter, ParameterKind, Port};

/// A name more in the innermost scope.
fn add_named(alloc: Global, text: &Text, meaning: Meaning, names: &mut Names) -> Result<(), Memory>
    requires { IsNamed (text.now, seen meaning) }
    ensures { OnOk result (names.new ≡ spec.in_innermost names.old text.now (seen meaning)) }
{
    let text = text.copied(alloc)?;
    let mut level = names.take(alloc);
    level.add(text, meaning)?;
    names.enter(level)
}

/// A parameter, which isn't known where it isn't said whether it may be selected from.
fn add_constant(
    alloc: Global,
    text: &Text,
    value: Const,
    selected: Option<bool>,
    names: &mut Names,
) -> Result<(), Memory>
    ensures { OnOk result (names.new ≡ spec.in_innermost names.old text.now (spec.constant_if value selected)) }
{
    match selected {
        None => add_named(alloc, text, Meaning::Faulty, names),
        Some(selected) => add_named(alloc, text, Meaning::Constant(value, selected), names),
    }
}

fn add_parameter(
    alloc: Global,
    parameter: &Parameter,
    given: &Given,
    names: &mut Names,
    numbers: &mut Names,
) -> Result<(), Memory>
    ensures { OnOk result (spec.stacks names.new numbers.new
        ≡ spec.with_parameter (value_given given.now) (spec.stacks names.old numbers.old) parameter.now) }
{
    let value = parameter_value(alloc, parameter, given, numbers)?;
    let selected = selected_if_known(alloc, parameter, given, names)?;
    add_constant(alloc, &parameter.name, value, selected, names)?;
    add_constant(alloc, &parameter.name, value, Some(true), numbers)
}

fn add_parameters(
    alloc: Global,
    all: &[Parameter],
    given: &Given,
    names: &mut Names,
    numbers: &mut Names,
) -> Result<(), Memory>
    ensures { OnOk result (spec.stacks names.new numbers.new
        ≡ spec.with_parameters (value_given given.now) (spec.stacks names.old numbers.old) all.now) }
{
    for parameter in all {
        add_parameter(alloc, parameter, given, names, numbers)?;
    }
    Ok(())
}

fn add_header(
    alloc: Global,
    all: &[HeaderParameter],
    given: &Given,
    names: &mut Names,
    numbers: &mut Names,
) -> Result<(), Memory>
    ensures { OnOk result (spec.stacks names.new numbers.new
        ≡ spec.with_parameters (value_given given.now) (spec.stacks names.old numbers.old)
        (header_parameters all.now)) }
{
    for parameter in all {
        add_parameter(alloc, &parameter.parameter, given, names, numbers)?;
    }
    Ok(())
}

/// A `localparam` is given nothing.
fn add_item(
    alloc: Global,
    item: &Item,
    given: &Given,
    nothing: &Given,
    names: &mut Names,
    numbers: &mut Names,
) -> Result<(), Memory>
    requires { (name : List ℕ) → value_given nothing.now name ≡ None }
    ensures { OnOk result (spec.stacks names.new numbers.new
        ≡ spec.with_item (value_given given.now) (spec.stacks names.old numbers.old) item.now) }
{
    match &item.kind {
        ItemKind::Parameter(ParameterKind::Parameter, all) => add_parameters(
            alloc,
            all.as_slice(),
            given,
            names,
            numbers,
        ),
        ItemKind::Parameter(ParameterKind::Localparam, all) => add_parameters(
            alloc,
            all.as_slice(),
            nothing,
            names,
            numbers,
        ),
        ItemKind::Declaration(_) | ItemKind::Integer(_) | ItemKind::Genvar(_) => Ok(()),
        ItemKind::Assign(_) | ItemKind::Always(_, _) | ItemKind::Initial(_) => Ok(()),
        ItemKind::Instance(_) | ItemKind::Generate(_) | ItemKind::For(_, _) => Ok(()),
        ItemKind::If(_, _, None) | ItemKind::If(_, _, Some(_)) => Ok(()),
    }
}

fn add_items(
    alloc: Global,
    all: &[Item],
    given: &Given,
    nothing: &Given,
    names: &mut Names,
    numbers: &mut Names,
) -> Result<(), Memory>
    requires { (name : List ℕ) → value_given nothing.now name ≡ None }
    ensures { OnOk result (spec.stacks names.new numbers.new
        ≡ spec.with_items (value_given given.now) (spec.stacks names.old numbers.old) (items all.now)) }
{
    for item in all {
        add_item(alloc, item, given, nothing, names, numbers)?;
    }
    Ok(())
}

/// Enters a scope whose names are all behind its parameters, and one for the parameters in it.
fn enter_levels(
    alloc: Global,
    behind: Level,
    names: &mut Names,
    numbers: &mut Names,
) -> Result<(), Memory>
    ensures { OnOk result (spec.stacks names.new numbers.new
        ≡ spec.stacks ([] ∷ behind ∷ names.old) ([] ∷ numbers.old)) }
{
    names.enter(behind)?;
    names.enter(Level::new(alloc))?;
    numbers.enter(Level::new(alloc))
}

/// Those of a module's head before those of its items.
fn add_all(
    alloc: Global,
    parameters: &[HeaderParameter],
    all: &[Item],
    given: &Given,
    names: &mut Names,
    numbers: &mut Names,
) -> Result<(), Memory>
    ensures { OnOk result (spec.stacks names.new numbers.new
        ≡ spec.with_items (value_given given.now) (spec.with_parameters (value_given given.now)
        (spec.stacks names.old numbers.old) (header_parameters parameters.now)) (items all.now)) }
{
    add_header(alloc, parameters, given, names, numbers)?;
    let nothing = Given::new(alloc);
    add_items(alloc, all, given, &nothing, names, numbers)
}

fn enter_all(
    alloc: Global,
    behind: Level,
    parameters: &[HeaderParameter],
    all: &[Item],
    given: &Given,
    names: &mut Names,
    numbers: &mut Names,
) -> Result<(), Memory>
    ensures { OnOk result (spec.stacks names.new numbers.new ≡ spec.entered (value_given given.now)
        (header_parameters parameters.now) (items all.now) behind names.old numbers.old) }
{
    enter_levels(alloc, behind, names, numbers)?;
    add_all(alloc, parameters, all, given, names, numbers)
}

/// Enters a scope as far as its parameters: its other names stand behind them, in a level of their own. Shapes of
/// ports, nets and variables are read there. `ports`: those of a module's head, `all`: the items of a module or a
/// block; `given`: what an instance gives to the parameters; `names`: what names mean, `numbers`: the numbers that
/// constants have by the definitions, refused or not.
pub fn enter_parameters(
    alloc: Global,
    parameters: &[HeaderParameter],
    ports: &[Port],
    all: &[Item],
    given: &Given,
    names: &mut Names,
    numbers: &mut Names,
) -> Result<(), Memory>
    ensures around { OnOk result (drop 2 names.new ≡ names.old) }
    ensures beneath { OnOk result (drop 1 numbers.new ≡ numbers.old) }
    ensures behind { OnOk result ((os : Overrides) → AreBehind (innermost (drop 1 names.new))
        (all_later (among.contents os parameters.now ports.now all.now))) }
    ensures names { OnOk result ((s : Scope) (outer : List Scoped) (ss : List Scope) (os : Overrides)
        → IsGiven (value_given given.now) os → Alike names.old outer → HaveNumbers numbers.old ss
        → s.constants ≡ among.constants_of ss (among.contents os parameters.now ports.now all.now)
        → Alike names.new
        (among.among_parameters s outer outer (among.contents os parameters.now ports.now all.now))) }
    ensures numbers { OnOk result ((s : Scope) (outer : List Scoped) (ss : List Scope) (os : Overrides)
        → IsGiven (value_given given.now) os → Alike names.old outer → HaveNumbers numbers.old ss
        → s.constants ≡ among.constants_of ss (among.contents os parameters.now ports.now all.now)
        → HaveNumbers numbers.new (with_constants s.constants ss)) }
    ensures own { OnOk result ((s : Scope) (outer : List Scoped) (ss : List Scope) (os : Overrides)
        → IsGiven (value_given given.now) os → Alike names.old outer → HaveNumbers numbers.old ss
        → s.constants ≡ among.constants_of ss (among.contents os parameters.now ports.now all.now)
        → AreOwn (innermost names.new) (innermost numbers.new)
        (among.parameter_meanings s outer (among.contents os parameters.now ports.now all.now)) s.constants) }
{
    let behind = names_behind(alloc, parameters, ports, all)?;
    enter_all(alloc, behind, parameters, all, given, names, numbers)
}
