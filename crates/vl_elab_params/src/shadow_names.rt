//! Names of a block that parameters of the scopes around have too.
ghost use Rattle.std.specs.Prelude.{◌≡◌, [], map, IfOk, OnOk};
ghost use Rattle.vl_tree.specs.Item.{items};
ghost use Rattle.vl_elab_spec.specs.Meanings.{item_names, items_names};
ghost use Rattle.vl_elab_params.specs.Shadows as spec;

use fv_text::{Memory, Text};
use std::alloc::Global;
use vl_elab_scope::{Level, Names};
use vl_tree::{DeclaredName, Item, ItemKind, Parameter};

/// Where something is said of the name around.
fn add_meaning(alloc: Global, text: &Text, names: &Names, level: &mut Level) -> Result<(), Memory>
    ensures { OnOk result (level.new ≡ spec.with_meaning names.now level.old text.now) }
{
    match names.meaning(text) {
        None => Ok(()),
        Some(meaning) => level.add(text.copied(alloc)?, meaning.copied(alloc)?),
    }
}

fn add_shadow(
    alloc: Global,
    text: &Text,
    names: &Names,
    around: &Names,
    level: &mut Level,
) -> Result<(), Memory>
    ensures { OnOk result (level.new ≡ spec.with_shadow names.now around.now level.old text.now) }
{
    match around.meaning(text) {
        None => Ok(()),
        Some(_) => add_meaning(alloc, text, names, level),
    }
}

fn add_declared(
    alloc: Global,
    all: &[DeclaredName],
    names: &Names,
    around: &Names,
    level: &mut Level,
) -> Result<(), Memory>
    ensures { OnOk result (level.new
        ≡ spec.with_shadows names.now around.now level.old (map (λ x. x.name) all.now)) }
{
    for name in all {
        add_shadow(alloc, &name.name, names, around, level)?;
    }
    Ok(())
}

fn add_genvars(
    alloc: Global,
    all: &[Text],
    names: &Names,
    around: &Names,
    level: &mut Level,
) -> Result<(), Memory>
    ensures { OnOk result (level.new ≡ spec.with_shadows names.now around.now level.old all.now) }
{
    for text in all {
        add_shadow(alloc, text, names, around, level)?;
    }
    Ok(())
}

fn add_parameters(
    alloc: Global,
    all: &[Parameter],
    names: &Names,
    around: &Names,
    level: &mut Level,
) -> Result<(), Memory>
    ensures { OnOk result (level.new
        ≡ spec.with_shadows names.now around.now level.old (map (λ x. x.name) all.now)) }
{
    for parameter in all {
        add_shadow(alloc, &parameter.name, names, around, level)?;
    }
    Ok(())
}

fn add_item(
    alloc: Global,
    item: &Item,
    names: &Names,
    around: &Names,
    level: &mut Level,
) -> Result<(), Memory>
    ensures { OnOk result (level.new
        ≡ spec.with_shadows names.now around.now level.old (item_names item.now)) }
{
    match &item.kind {
        ItemKind::Declaration(declaration) => {
            add_declared(alloc, declaration.names.as_slice(), names, around, level)
        }
        ItemKind::Integer(all) => add_declared(alloc, all.as_slice(), names, around, level),
        ItemKind::Genvar(all) => add_genvars(alloc, all.as_slice(), names, around, level),
        ItemKind::Parameter(_, all) => add_parameters(alloc, all.as_slice(), names, around, level),
        ItemKind::Assign(_) | ItemKind::Always(_, _) | ItemKind::Initial(_) => Ok(()),
        ItemKind::Instance(_) | ItemKind::Generate(_) | ItemKind::For(_, _) => Ok(()),
        ItemKind::If(_, _, None) | ItemKind::If(_, _, Some(_)) => Ok(()),
    }
}

/// What the names of a block with these items mean, of which something is said around. `names`: those of the block are
/// innermost; `around`: what is said of the parameters of the scopes around.
pub fn shadows(alloc: Global, all: &[Item], names: &Names, around: &Names) -> Result<Level, Memory>
    ensures { IfOk result (λ level. level
        ≡ spec.with_shadows names.now around.now [] (items_names (items all.now))) }
{
    let mut level = Level::new(alloc);
    for item in all {
        add_item(alloc, item, names, around, &mut level)?;
    }
    Ok(level)
}
