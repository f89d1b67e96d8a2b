//! Names that the walk passes.
ghost use Rattle.std.specs.Prelude.{◌≡◌, map, OnOk, option_to_list};
ghost use Rattle.std.specs.Option.{option_copied};
ghost use Rattle.vl_tree.specs.Item.{single};
ghost use Rattle.vl_tree.specs.ItemView.{block as block_of};
ghost use Rattle.vl_mean.specs.Declarations.{block_labels, names_of};
ghost use Rattle.vl_elab_spec.specs.Meanings.{meaning_in};
ghost use Rattle.vl_elab_scope.specs.Seen.{seen, seen_or, with_name};
ghost use Rattle.vl_elab_params.specs.Passed as spec;

use fv_text::{Memory, Text};
use std::alloc::Global;
use vl_elab_scope::{Level, Meaning, Names};
use vl_tree::{Block, DeclaredName, Item, ItemKind, Parameter};

/// A parameter is known or faulty.
fn parameter_meaning(meaning: Option<&Meaning>) -> Meaning
    ensures { seen result ≡ spec.parameter_meaning (seen_or (option_copied meaning.entry)) }
{
    match meaning {
        Some(Meaning::Constant(value, selected)) => Meaning::Constant(*value, *selected),
        None => Meaning::Faulty,
        Some(Meaning::LoopVariable | Meaning::Object(_) | Meaning::Faulty) => Meaning::Faulty,
        Some(Meaning::Shapeless | Meaning::Later) => Meaning::Faulty,
    }
}

fn add_parameter(
    alloc: Global,
    text: &Text,
    names: &Names,
    passed: &mut Level,
) -> Result<(), Memory>
    ensures { OnOk result (passed.new
        ≡ with_name passed.old text.now (spec.parameter_meaning (meaning_in names.now text.now))) }
{
    let meaning = parameter_meaning(names.meaning(text));
    passed.add(text.copied(alloc)?, meaning)
}

/// A name, which counts where it is that of a parameter.
#[tactic(auto, using(vl_elab_scope::proofs::Levels::seen_declared))]
pub(crate) fn pass_name(
    alloc: Global,
    text: &Text,
    pending: &Level,
    names: &Names,
    passed: &mut Level,
) -> Result<(), Memory>
    ensures { OnOk result (passed.new ≡ spec.with_passed pending.now names.now passed.old text.now) }
{
    match pending.meaning(text) {
        None => Ok(()),
        Some(_) => add_parameter(alloc, text, names, passed),
    }
}

fn pass_declared(
    alloc: Global,
    all: &[DeclaredName],
    pending: &Level,
    names: &Names,
    passed: &mut Level,
) -> Result<(), Memory>
    ensures { OnOk result (passed.new
        ≡ spec.with_all_passed pending.now names.now passed.old (map (λ x. x.name) all.now)) }
{
    for name in all {
        pass_name(alloc, &name.name, pending, names, passed)?;
    }
    Ok(())
}

fn pass_parameters(
    alloc: Global,
    all: &[Parameter],
    pending: &Level,
    names: &Names,
    passed: &mut Level,
) -> Result<(), Memory>
    ensures { OnOk result (passed.new
        ≡ spec.with_all_passed pending.now names.now passed.old (map (λ x. x.name) all.now)) }
{
    for parameter in all {
        pass_name(alloc, &parameter.name, pending, names, passed)?;
    }
    Ok(())
}

fn pass_texts(
    alloc: Global,
    all: &[Text],
    pending: &Level,
    names: &Names,
    passed: &mut Level,
) -> Result<(), Memory>
    ensures { OnOk result (passed.new ≡ spec.with_all_passed pending.now names.now passed.old all.now) }
{
    for text in all {
        pass_name(alloc, text, pending, names, passed)?;
    }
    Ok(())
}

fn pass_label(
    alloc: Global,
    label: &Option<Text>,
    pending: &Level,
    names: &Names,
    passed: &mut Level,
) -> Result<(), Memory>
    ensures { OnOk result (passed.new
        ≡ spec.with_all_passed pending.now names.now passed.old (option_to_list label.now)) }
{
    match label {
        None => Ok(()),
        Some(text) => pass_name(alloc, text, pending, names, passed),
    }
}

/// The label of a block of an `if`, or those of an `if` alone in it.
#[cycle(labels)]
fn pass_labels(
    alloc: Global,
    block: &Block,
    pending: &Level,
    names: &Names,
    passed: &mut Level,
) -> Result<(), Memory>
    ensures { OnOk result (passed.new
        ≡ spec.with_all_passed pending.now names.now passed.old (block_labels (block_of block.now))) }
{
    match block {
        Block::Begin(_, label, _) => pass_label(alloc, label, pending, names, passed),
        Block::Region(_, _) => Ok(()),
        Block::Single(item) => pass_inner_labels(alloc, item, pending, names, passed),
    }
}

#[cycle(labels)]
#[tactic(auto, using(vl_tree::specs::ItemFalls::parts_fall, crate::proofs::Passing::passed_twice))]
fn pass_inner_labels(
    alloc: Global,
    item: &Item,
    pending: &Level,
    names: &Names,
    passed: &mut Level,
) -> Result<(), Memory>
    ensures { OnOk result (passed.new
        ≡ spec.with_all_passed pending.now names.now passed.old (block_labels (single item.now))) }
{
    match &item.kind {
        ItemKind::If(_, first, None) => pass_labels(alloc, first, pending, names, passed),
        ItemKind::If(_, first, Some(second)) => {
            pass_labels(alloc, first, pending, names, passed)?;
            pass_labels(alloc, second, pending, names, passed)
        }
        ItemKind::Declaration(_) | ItemKind::Integer(_) | ItemKind::Genvar(_) => Ok(()),
        ItemKind::Parameter(_, _) | ItemKind::Assign(_) | ItemKind::Always(_, _) => Ok(()),
        ItemKind::Initial(_) | ItemKind::Instance(_) | ItemKind::Generate(_) => Ok(()),
        ItemKind::For(_, _) => Ok(()),
    }
}

/// All names that an item declares.
pub(crate) fn pass_item(
    alloc: Global,
    item: &Item,
    pending: &Level,
    names: &Names,
    passed: &mut Level,
) -> Result<(), Memory>
    ensures { OnOk result (passed.new
        ≡ spec.with_all_passed pending.now names.now passed.old (names_of item.now)) }
{
    match &item.kind {
        ItemKind::Declaration(declaration) => {
            pass_declared(alloc, declaration.names.as_slice(), pending, names, passed)
        }
        ItemKind::Integer(all) => pass_declared(alloc, all.as_slice(), pending, names, passed),
        ItemKind::Genvar(all) => pass_texts(alloc, all.as_slice(), pending, names, passed),
        ItemKind::Parameter(_, all) => pass_parameters(
            alloc,
            all.as_slice(),
            pending,
            names,
            passed,
        ),
        ItemKind::Instance(instance) => pass_name(alloc, &instance.name, pending, names, passed),
        ItemKind::For(_, Block::Begin(_, label, _)) => {
            pass_label(alloc, label, pending, names, passed)
        }
        ItemKind::For(_, Block::Region(_, _) | Block::Single(_)) => Ok(()),
        ItemKind::If(_, _, None) | ItemKind::If(_, _, Some(_)) => {
            pass_inner_labels(alloc, item, pending, names, passed)
        }
        ItemKind::Assign(_) | ItemKind::Always(_, _) | ItemKind::Initial(_) => Ok(()),
        ItemKind::Generate(_) => Ok(()),
    }
}
