//! Labels of generate constructs, which count as names of the scope around them.
ghost use Rattle.std.specs.Prelude.{◌≡◌, ◌++◌, ℕ, List, IfOk, OnOk, option_to_list};
ghost use Rattle.vl_tree.specs.ItemView.{block as block_of};
ghost use Rattle.vl_mean.specs.Declarations as declarations;
ghost use Rattle.vl_elab_spec.specs.Items as items;
ghost use Rattle.vl_elab_spec.specs.Refused.{lowest};
ghost use Rattle.vl_elab_names.specs.Known as known;
ghost use Rattle.vl_elab_check_scope.specs.Parts as spec;

use fv_text::{Memory, Pos, Text};
use std::alloc::Global;
use vl_elab_check_expr::{first_of, twice_if};
use vl_elab_names::NameSet;
use vl_elab_spec::ElabFault;
use vl_tree::{Block, Item, ItemKind};

fn is_if(item: &Item) -> bool
    ensures { result ≡ declarations.is_if item.now }
{
    match &item.kind {
        ItemKind::If(_, _, None) | ItemKind::If(_, _, Some(_)) => true,
        ItemKind::Declaration(_) | ItemKind::Integer(_) | ItemKind::Genvar(_) => false,
        ItemKind::Parameter(_, _) | ItemKind::Assign(_) | ItemKind::Always(_, _) => false,
        ItemKind::Initial(_) | ItemKind::Instance(_) | ItemKind::Generate(_) => false,
        ItemKind::For(_, _) => false,
    }
}

/// A label that is written, where its block begins.
fn label_fault(
    alloc: Global,
    pos: Pos,
    label: &Option<Text>,
    earlier: &NameSet,
) -> Result<Option<ElabFault>, Memory>
    ensures { IfOk result (λ g. g
        ≡ lowest (spec.labels_by (known.contains earlier.now) (items.optional_label pos label.now))) }
{
    match label {
        None => Ok(None),
        Some(text) => twice_if(alloc, earlier.contains(text), text, pos),
    }
}

#[cycle(judge)]
#[tactic(auto, using(vl_tree::specs::ItemFalls::parts_fall, crate::proofs::LabelLemmas::two))]
fn item_labels(alloc: Global, item: &Item, earlier: &NameSet) -> Result<Option<ElabFault>, Memory>
    ensures { IfOk result (λ g. g
        ≡ lowest (spec.labels_by (known.contains earlier.now) (items.placed_labels item.now))) }
{
    match &item.kind {
        ItemKind::For(_, Block::Begin(pos, label, _)) => label_fault(alloc, *pos, label, earlier),
        ItemKind::For(_, Block::Region(_, _) | Block::Single(_)) => Ok(None),
        ItemKind::If(_, first, None) => block_labels(alloc, first, earlier),
        ItemKind::If(_, first, Some(second)) => {
            let found = block_labels(alloc, first, earlier)?;
            let other = block_labels(alloc, second, earlier)?;
            Ok(first_of(found, other))
        }
        ItemKind::Declaration(_) | ItemKind::Integer(_) | ItemKind::Genvar(_) => Ok(None),
        ItemKind::Parameter(_, _) | ItemKind::Assign(_) | ItemKind::Always(_, _) => Ok(None),
        ItemKind::Initial(_) | ItemKind::Instance(_) | ItemKind::Generate(_) => Ok(None),
    }
}

/// An `if` alone in a block is directly nested.
#[cycle(judge)]
fn block_labels(
    alloc: Global,
    block: &Block,
    earlier: &NameSet,
) -> Result<Option<ElabFault>, Memory>
    ensures { IfOk result (λ g. g
        ≡ lowest (spec.labels_by (known.contains earlier.now) (items.block_labels (block_of block.now)))) }
{
    match block {
        Block::Begin(pos, label, _) => label_fault(alloc, *pos, label, earlier),
        Block::Region(_, _) => Ok(None),
        Block::Single(item) => if is_if(item) {
            item_labels(alloc, item, earlier)
        } else {
            Ok(None)
        },
    }
}

/// Of the labels of a generate construct's blocks those that stand before it in its scope: of all such refusals the
/// one at the earliest place. None exactly where none does.
pub fn labels_fault(
    alloc: Global,
    item: &Item,
    earlier: &NameSet,
) -> Result<Option<ElabFault>, Memory>
    ensures { IfOk result (λ g. (names : List (List ℕ)) → known.AreNames earlier.now names
        → g ≡ lowest (items.labels_twice names (items.placed_labels item.now))) }
{
    item_labels(alloc, item, earlier)
}

fn add_label(alloc: Global, label: &Option<Text>, earlier: &mut NameSet) -> Result<(), Memory>
    ensures { OnOk result (known.contains earlier.new
        ≡ spec.with_names (known.contains earlier.old) (option_to_list label.now)) }
{
    match label {
        None => Ok(()),
        Some(text) => earlier.add(text.copied(alloc)?),
    }
}

#[cycle(add)]
#[tactic(auto, using(vl_tree::specs::ItemFalls::parts_fall, crate::proofs::LabelLemmas::added))]
fn add_item_labels(alloc: Global, item: &Item, earlier: &mut NameSet) -> Result<(), Memory>
    ensures { OnOk result (known.contains earlier.new
        ≡ spec.with_names (known.contains earlier.old) (declarations.labels_of item.now)) }
{
    match &item.kind {
        ItemKind::For(_, Block::Begin(_, label, _)) => add_label(alloc, label, earlier),
        ItemKind::For(_, Block::Region(_, _) | Block::Single(_)) => Ok(()),
        ItemKind::If(_, first, None) => add_block_labels(alloc, first, earlier),
        ItemKind::If(_, first, Some(second)) => {
            add_block_labels(alloc, first, earlier)?;
            add_block_labels(alloc, second, earlier)
        }
        ItemKind::Declaration(_) | ItemKind::Integer(_) | ItemKind::Genvar(_) => Ok(()),
        ItemKind::Parameter(_, _) | ItemKind::Assign(_) | ItemKind::Always(_, _) => Ok(()),
        ItemKind::Initial(_) | ItemKind::Instance(_) | ItemKind::Generate(_) => Ok(()),
    }
}

#[cycle(add)]
fn add_block_labels(alloc: Global, block: &Block, earlier: &mut NameSet) -> Result<(), Memory>
    ensures { OnOk result (known.contains earlier.new
        ≡ spec.with_names (known.contains earlier.old) (declarations.block_labels (block_of block.now))) }
{
    match block {
        Block::Begin(_, label, _) => add_label(alloc, label, earlier),
        Block::Region(_, _) => Ok(()),
        Block::Single(item) => if is_if(item) {
            add_item_labels(alloc, item, earlier)
        } else {
            Ok(())
        },
    }
}

/// The labels of a generate construct's blocks stand behind the names before it then.
pub fn add_labels(alloc: Global, item: &Item, earlier: &mut NameSet) -> Result<(), Memory>
    ensures { OnOk result ((names : List (List ℕ)) → known.AreNames earlier.old names
        → known.AreNames earlier.new (names ++ declarations.labels_of item.now)) }
{
    add_item_labels(alloc, item, earlier)
}
