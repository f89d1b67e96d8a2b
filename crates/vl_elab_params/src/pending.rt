//! All parameters of a scope.
ghost use Rattle.std.specs.Prelude.{◌≡◌, ◌++◌, IfOk, OnOk};
ghost use Rattle.vl_tree.specs.Item.{items};
ghost use Rattle.vl_mean.specs.Declarations.{header_parameters};
ghost use Rattle.vl_mean.specs.Walk.{parameter_names};
ghost use Rattle.vl_elab_spec.specs.Meanings.{later, parameters_of};
ghost use Rattle.vl_elab_scope.specs.Seen.{with_name};
ghost use Rattle.vl_elab_params.specs.Entered.{with_later};
ghost use Rattle.vl_elab_params.specs.Passed as spec;

use fv_text::{Memory, Text};
use std::alloc::Global;
use vl_elab_scope::{Level, Meaning};
use vl_tree::{HeaderParameter, Item, ItemKind, Parameter};

fn add_later(alloc: Global, text: &Text, level: &mut Level) -> Result<(), Memory>
    ensures { OnOk result (level.new ≡ with_name level.old text.now later) }
{
    level.add(text.copied(alloc)?, Meaning::Later)
}

fn add_header(alloc: Global, all: &[HeaderParameter], level: &mut Level) -> Result<(), Memory>
    ensures { OnOk result (level.new ≡ with_later level.old (parameter_names (header_parameters all.now))) }
{
    for parameter in all {
        add_later(alloc, &parameter.parameter.name, level)?;
    }
    Ok(())
}

fn add_parameters(alloc: Global, all: &[Parameter], level: &mut Level) -> Result<(), Memory>
    ensures { OnOk result (level.new ≡ with_later level.old (parameter_names all.now)) }
{
    for parameter in all {
        add_later(alloc, &parameter.name, level)?;
    }
    Ok(())
}

fn add_item(alloc: Global, item: &Item, level: &mut Level) -> Result<(), Memory>
    ensures { OnOk result (level.new ≡ with_later level.old (spec.item_parameters item.now)) }
{
    match &item.kind {
        ItemKind::Parameter(_, all) => add_parameters(alloc, all.as_slice(), level),
        ItemKind::Declaration(_) | ItemKind::Integer(_) | ItemKind::Genvar(_) => Ok(()),
        ItemKind::Assign(_) | ItemKind::Always(_, _) | ItemKind::Initial(_) => Ok(()),
        ItemKind::Instance(_) | ItemKind::Generate(_) | ItemKind::For(_, _) => Ok(()),
        ItemKind::If(_, _, None) | ItemKind::If(_, _, Some(_)) => Ok(()),
    }
}

fn add_items(alloc: Global, all: &[Item], level: &mut Level) -> Result<(), Memory>
    ensures { OnOk result (level.new ≡ with_later level.old (parameters_of (items all.now))) }
{
    for item in all {
        add_item(alloc, item, level)?;
    }
    Ok(())
}

/// All parameters of a scope, none of them before a step.
pub(crate) fn all_pending(
    alloc: Global,
    parameters: &[HeaderParameter],
    all: &[Item],
) -> Result<Level, Memory>
    ensures { IfOk result (λ level. level
        ≡ spec.all_pending (parameter_names (header_parameters parameters.now) ++ parameters_of (items all.now))) }
{
    let mut level = Level::new(alloc);
    add_header(alloc, parameters, &mut level)?;
    add_items(alloc, all, &mut level)?;
    Ok(level)
}
