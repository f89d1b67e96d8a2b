//! Names of an item that stand before what is behind it.
ghost use Rattle.std.specs.Prelude.{◌≡◌, ◌++◌, ℕ, List, OnOk};
ghost use Rattle.std.specs.Option.{option_copied};
ghost use Rattle.vl_mean.specs.Declarations.{names_of};
ghost use Rattle.vl_mean.specs.Walk.{Place};
ghost use Rattle.vl_elab_spec.specs.Meanings.{item_names, meanings_at};
ghost use Rattle.vl_elab_scope.specs.Alike.{Alike};
ghost use Rattle.vl_elab_names.specs.Known.{AreNames, contains};
ghost use Rattle.vl_elab_params.specs.Reached.{IsReached};
ghost use Rattle.vl_elab_check_scope.specs.Parts.{with_name};
ghost use Rattle.vl_elab_check.specs.Here.{own_names};
ghost use Rattle.vl_elab_check.specs.Kinds as spec;

use fv_text::{Memory, Text};
use std::alloc::Global;
use vl_elab_check_scope::add_labels;
use vl_elab_names::NameSet;
use vl_elab_params::Reached;
use vl_elab_scope::Names;
use vl_tree::{Item, ItemKind};

/// Of nets, variables or genvars.
fn is_of_objects(item: &Item) -> bool
    ensures { result ≡ spec.is_of_objects item.now }
{
    match &item.kind {
        ItemKind::Declaration(_) | ItemKind::Integer(_) | ItemKind::Genvar(_) => true,
        ItemKind::Parameter(_, _) | ItemKind::Assign(_) | ItemKind::Always(_, _) => false,
        ItemKind::Initial(_) | ItemKind::Instance(_) | ItemKind::Generate(_) => false,
        ItemKind::For(_, _) | ItemKind::If(_, _, None) | ItemKind::If(_, _, Some(_)) => false,
    }
}

/// Nets, variables and genvars, which may have the names of parameters, stand before what is behind the item.
pub(crate) fn pass_declared(
    alloc: Global,
    item: &Item,
    names: &Names,
    reached: &mut Reached,
) -> Result<(), Memory>
    ensures { OnOk result ((at : Place) (before : List (List ℕ)) → Alike names.now (meanings_at at)
        → IsReached reached.old at before → IsReached reached.new at (before ++ own_names item.now)) }
{
    if is_of_objects(item) {
        return reached.pass_item(alloc, item, names);
    }
    Ok(())
}

/// A name that stands before what is behind it.
pub(crate) fn add_name(alloc: Global, text: &Text, earlier: &mut NameSet) -> Result<(), Memory>
    ensures { OnOk result ((other : List ℕ)
        → contains earlier.new other ≡ with_name (contains earlier.old) text.now other) }
{
    earlier.add(text.copied(alloc)?)
}

/// Of an instance its name.
fn instance_name(item: &Item) -> Option<&Text>
    ensures { option_copied result ≡ spec.instance_name item.now }
{
    match &item.kind {
        ItemKind::Instance(instance) => Some(&instance.name),
        ItemKind::Declaration(_) | ItemKind::Integer(_) | ItemKind::Genvar(_) => None,
        ItemKind::Parameter(_, _) | ItemKind::Assign(_) | ItemKind::Always(_, _) => None,
        ItemKind::Initial(_) | ItemKind::Generate(_) | ItemKind::For(_, _) => None,
        ItemKind::If(_, _, None) | ItemKind::If(_, _, Some(_)) => None,
    }
}

/// The name of an instance, or labels.
fn add_rest(alloc: Global, item: &Item, earlier: &mut NameSet) -> Result<(), Memory>
    ensures { OnOk result ((before : List (List ℕ)) → AreNames earlier.old (before ++ item_names item.now)
        → AreNames earlier.new (before ++ names_of item.now)) }
{
    match instance_name(item) {
        None => add_labels(alloc, item, earlier),
        Some(name) => add_name(alloc, name, earlier),
    }
}

/// An instance or a construct.
fn has_steps_within(item: &Item) -> bool
    ensures { result ≡ spec.has_steps_within item.now }
{
    match &item.kind {
        ItemKind::Instance(_) | ItemKind::For(_, _) => true,
        ItemKind::If(_, _, None) | ItemKind::If(_, _, Some(_)) => true,
        ItemKind::Declaration(_) | ItemKind::Integer(_) | ItemKind::Genvar(_) => false,
        ItemKind::Parameter(_, _) | ItemKind::Assign(_) | ItemKind::Always(_, _) => false,
        ItemKind::Initial(_) | ItemKind::Generate(_) => false,
    }
}

fn pass_rest(alloc: Global, item: &Item, names: &Names, reached: &mut Reached) -> Result<(), Memory>
    ensures { OnOk result ((at : Place) (before : List (List ℕ)) → Alike names.now (meanings_at at)
        → IsReached reached.old at (before ++ item_names item.now)
        → IsReached reached.new at (before ++ names_of item.now)) }
{
    if has_steps_within(item) {
        return reached.pass_item(alloc, item, names);
    }
    Ok(())
}

/// Behind all steps of an item: the name of an instance and the labels of a construct stand among the names too.
pub(crate) fn pass_item(
    alloc: Global,
    item: &Item,
    names: &Names,
    earlier: &mut NameSet,
    reached: &mut Reached,
) -> Result<(), Memory>
    ensures earlier { OnOk result ((before : List (List ℕ)) → AreNames earlier.old (before ++ item_names item.now)
        → AreNames earlier.new (before ++ names_of item.now)) }
    ensures reached { OnOk result ((at : Place) (before : List (List ℕ)) → Alike names.now (meanings_at at)
        → IsReached reached.old at (before ++ item_names item.now)
        → IsReached reached.new at (before ++ names_of item.now)) }
{
    add_rest(alloc, item, earlier)?;
    pass_rest(alloc, item, names, reached)
}
