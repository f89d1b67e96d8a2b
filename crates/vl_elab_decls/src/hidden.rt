//! Names of a block that hide constants of the scopes around it.
ghost use Rattle.std.specs.Prelude.{◌≡◌, ◌∷◌, [], IfOk, OnOk, map, drop, if◌then◌else◌};
ghost use Rattle.vl_tree.specs.Item.{items};
ghost use Rattle.vl_elab_spec.specs.Meanings.{faulty, is_undeclared, meaning_of};
ghost use Rattle.vl_elab_scope.specs.Seen.{innermost, with_name};
ghost use Rattle.vl_elab_decls.specs.Hidden as spec;

use fv_text::{Memory, Text};
use std::alloc::Global;
use vl_elab_scope::{Level, Meaning, Names};
use vl_tree::{DeclaredName, Item, ItemKind};

/// A name that is no constant of the block.
#[tactic(auto, using(vl_elab_scope::proofs::Levels::seen_declared))]
fn add_hidden(alloc: Global, text: &Text, values: &Level, level: &mut Level) -> Result<(), Memory>
    ensures { OnOk result (level.new ≡ (if is_undeclared (meaning_of values.now text.now)
        then with_name level.old text.now faulty else level.old)) }
{
    match values.meaning(text) {
        None => level.add(text.copied(alloc)?, Meaning::Faulty),
        Some(_) => Ok(()),
    }
}

fn add_names(
    alloc: Global,
    all: &[DeclaredName],
    values: &Level,
    level: &mut Level,
) -> Result<(), Memory>
    ensures { OnOk result (level.new ≡ spec.with_hidden values.now level.old (map (λ x. x.name) all.now)) }
{
    for name in all {
        add_hidden(alloc, &name.name, values, level)?;
    }
    Ok(())
}

fn add_item(alloc: Global, item: &Item, values: &Level, level: &mut Level) -> Result<(), Memory>
    ensures { OnOk result (level.new ≡ spec.with_hidden values.now level.old (spec.object_names item.now)) }
{
    match &item.kind {
        ItemKind::Declaration(declaration) => add_names(
            alloc,
            declaration.names.as_slice(),
            values,
            level,
        ),
        ItemKind::Integer(all) => add_names(alloc, all.as_slice(), values, level),
        ItemKind::Genvar(_) | ItemKind::Parameter(_, _) | ItemKind::Assign(_) => Ok(()),
        ItemKind::Always(_, _) | ItemKind::Initial(_) | ItemKind::Instance(_) => Ok(()),
        ItemKind::Generate(_) | ItemKind::For(_, _) => Ok(()),
        ItemKind::If(_, _, None) | ItemKind::If(_, _, Some(_)) => Ok(()),
    }
}

fn hidden_names(alloc: Global, all: &[Item], values: &Level) -> Result<Level, Memory>
    ensures { IfOk result (λ level. level ≡ spec.with_hidden_items values.now [] (items all.now)) }
{
    let mut level = Level::new(alloc);
    for item in all {
        add_item(alloc, item, values, &mut level)?;
    }
    Ok(level)
}

/// Hides, behind the constants of a block, what it declares besides. `numbers`: those constants are innermost.
pub(crate) fn hide(alloc: Global, all: &[Item], numbers: &mut Names) -> Result<(), Memory>
    ensures { OnOk result (numbers.new ≡ spec.with_hidden_items (innermost numbers.old) [] (items all.now)
        ∷ innermost numbers.old ∷ drop 1 numbers.old) }
{
    let values = numbers.take(alloc);
    let hidden = hidden_names(alloc, all, &values)?;
    numbers.enter(values)?;
    numbers.enter(hidden)
}
