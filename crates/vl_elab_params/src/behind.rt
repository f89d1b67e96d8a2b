//! The names of a scope, before its parameters.
ghost use Rattle.std.specs.Prelude.{◌≡◌, ◌||◌, ℕ, List, false, IfOk, OnOk, map};
ghost use Rattle.vl_tree.specs.Item.{items};
ghost use Rattle.vl_mean.specs.Declarations.{header_parameters, Overrides};
ghost use Rattle.vl_mean.specs.Walk.{parameter_names};
ghost use Rattle.vl_elab_spec.specs.Meanings.{all_later, item_names, items_names, later, meaning_of};
ghost use Rattle.vl_elab_scope.specs.Seen.{with_name, AreNamed};
ghost use Rattle.vl_elab_params.specs.Among.{contents};
ghost use Rattle.vl_elab_params.specs.Entered as spec;

use fv_text::{Memory, Text};
use std::alloc::Global;
use vl_elab_scope::{Level, Meaning};
use vl_tree::{DeclaredName, HeaderParameter, Item, ItemKind, Parameter, Port, PortKind};

fn add_later(alloc: Global, text: &Text, level: &mut Level) -> Result<(), Memory>
    ensures { OnOk result (level.new ≡ with_name level.old text.now later) }
{
    level.add(text.copied(alloc)?, Meaning::Later)
}

fn add_header(alloc: Global, all: &[HeaderParameter], level: &mut Level) -> Result<(), Memory>
    ensures { OnOk result (level.new ≡ spec.with_later level.old (parameter_names (header_parameters all.now))) }
{
    for parameter in all {
        add_later(alloc, &parameter.parameter.name, level)?;
    }
    Ok(())
}

/// One that is written short stands behind another.
fn add_port(
    alloc: Global,
    kind: &PortKind,
    is_behind: bool,
    level: &mut Level,
) -> Result<bool, Memory>
    ensures behind { IfOk result (λ b. b ≡ (is_behind || spec.is_full kind.now)) }
    ensures level { OnOk result (level.new ≡ spec.with_later level.old (spec.port_text is_behind kind.now)) }
{
    match kind {
        PortKind::Full(port) => {
            add_later(alloc, &port.name, level)?;
            Ok(true)
        }
        PortKind::Short(text, _) => {
            if is_behind {
                add_later(alloc, text, level)?;
            }
            Ok(is_behind)
        }
    }
}

fn add_ports(alloc: Global, all: &[Port], level: &mut Level) -> Result<(), Memory>
    ensures { OnOk result (level.new ≡ spec.with_later level.old (spec.port_texts false all.now)) }
{
    let mut is_behind = false;
    for port in all {
        is_behind = add_port(alloc, &port.kind, is_behind, level)?;
    }
    Ok(())
}

fn add_declared(alloc: Global, all: &[DeclaredName], level: &mut Level) -> Result<(), Memory>
    ensures { OnOk result (level.new ≡ spec.with_later level.old (map (λ x. x.name) all.now)) }
{
    for name in all {
        add_later(alloc, &name.name, level)?;
    }
    Ok(())
}

fn add_genvars(alloc: Global, all: &[Text], level: &mut Level) -> Result<(), Memory>
    ensures { OnOk result (level.new ≡ spec.with_later level.old all.now) }
{
    for text in all {
        add_later(alloc, text, level)?;
    }
    Ok(())
}

fn add_parameters(alloc: Global, all: &[Parameter], level: &mut Level) -> Result<(), Memory>
    ensures { OnOk result (level.new ≡ spec.with_later level.old (map (λ x. x.name) all.now)) }
{
    for parameter in all {
        add_later(alloc, &parameter.name, level)?;
    }
    Ok(())
}

fn add_item(alloc: Global, item: &Item, level: &mut Level) -> Result<(), Memory>
    ensures { OnOk result (level.new ≡ spec.with_later level.old (item_names item.now)) }
{
    match &item.kind {
        ItemKind::Declaration(declaration) => add_declared(
            alloc,
            declaration.names.as_slice(),
            level,
        ),
        ItemKind::Integer(names) => add_declared(alloc, names.as_slice(), level),
        ItemKind::Genvar(names) => add_genvars(alloc, names.as_slice(), level),
        ItemKind::Parameter(_, all) => add_parameters(alloc, all.as_slice(), level),
        ItemKind::Assign(_) | ItemKind::Always(_, _) | ItemKind::Initial(_) => Ok(()),
        ItemKind::Instance(_) | ItemKind::Generate(_) | ItemKind::For(_, _) => Ok(()),
        ItemKind::If(_, _, None) | ItemKind::If(_, _, Some(_)) => Ok(()),
    }
}

fn add_items(alloc: Global, all: &[Item], level: &mut Level) -> Result<(), Memory>
    ensures { OnOk result (level.new ≡ spec.with_later level.old (items_names (items all.now))) }
{
    for item in all {
        add_item(alloc, item, level)?;
    }
    Ok(())
}

fn all_behind(
    alloc: Global,
    parameters: &[HeaderParameter],
    ports: &[Port],
    all: &[Item],
) -> Result<Level, Memory>
    ensures { IfOk result (λ level. level ≡ spec.names_behind parameters.now ports.now all.now) }
{
    let mut level = Level::new(alloc);
    add_header(alloc, parameters, &mut level)?;
    add_ports(alloc, ports, &mut level)?;
    add_items(alloc, all, &mut level)?;
    Ok(level)
}

/// All names that a scope declares and that may stand in expressions, none of them before its parameters.
/// `parameters`, `ports`: those of a module's head; `all`: the items of a module or a block.
pub(crate) fn names_behind(
    alloc: Global,
    parameters: &[HeaderParameter],
    ports: &[Port],
    all: &[Item],
) -> Result<Level, Memory>
    ensures meaning { IfOk result (λ level. (os : Overrides) (text : List ℕ) → meaning_of level text
        ≡ meaning_of (all_later (contents os parameters.now ports.now all.now)) text) }
    ensures named { IfOk result (λ level. AreNamed level) }
{
    all_behind(alloc, parameters, ports, all)
}
