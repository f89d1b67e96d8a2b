//! The names that items declare: labels of generate blocks too.
ghost use Rattle.std.specs.Prelude.{◌≡◌, ◌++◌, ◌∷◌, [], OnOk, map, option_to_list};
ghost use Rattle.vl_tree.specs.Item.{items};
ghost use Rattle.vl_tree.specs.ItemView.{block as block_of};
ghost use Rattle.vl_mean.specs.Declarations as spec;
ghost use Rattle.vl_mean.specs.Declarations.{header_parameters};
ghost use Rattle.vl_mean.specs.Walk.{parameter_names};

use fv_text::{List, Memory, Text};
use std::alloc::Global;
use vl_size::Decl;
use vl_tree::{Block, DeclaredName, HeaderParameter, Item, ItemKind, Parameter};

fn add(alloc: Global, name: &Text, names: &mut List<Text>) -> Result<(), Memory>
    ensures { OnOk result (names.new ≡ names.old ++ name.now ∷ []) }
{
    names.push(name.copied(alloc)?)
}

fn add_declared(alloc: Global, all: &[DeclaredName], names: &mut List<Text>) -> Result<(), Memory>
    ensures { OnOk result (names.new ≡ names.old ++ map (λ x. x.name) all.now) }
{
    for name in all {
        add(alloc, &name.name, names)?;
    }
    Ok(())
}

fn add_parameters(alloc: Global, all: &[Parameter], names: &mut List<Text>) -> Result<(), Memory>
    ensures { OnOk result (names.new ≡ names.old ++ map (λ x. x.name) all.now) }
{
    for parameter in all {
        add(alloc, &parameter.name, names)?;
    }
    Ok(())
}

fn add_texts(alloc: Global, all: &[Text], names: &mut List<Text>) -> Result<(), Memory>
    ensures { OnOk result (names.new ≡ names.old ++ all.now) }
{
    for text in all {
        add(alloc, text, names)?;
    }
    Ok(())
}

/// Those of the parameters of a module's head.
pub(crate) fn add_header(
    alloc: Global,
    all: &[HeaderParameter],
    names: &mut List<Text>,
) -> Result<(), Memory>
    ensures { OnOk result (names.new ≡ names.old ++ parameter_names (header_parameters all.now)) }
{
    for parameter in all {
        add(alloc, &parameter.parameter.name, names)?;
    }
    Ok(())
}

/// Those of nets and variables.
pub(crate) fn add_decls(alloc: Global, all: &[Decl], names: &mut List<Text>) -> Result<(), Memory>
    ensures { OnOk result (names.new ≡ names.old ++ map (λ d. d.name) all.now) }
{
    for decl in all {
        add(alloc, &decl.name, names)?;
    }
    Ok(())
}

#[tactic(auto, using(crate::proofs::Ahead::ahead))]
fn add_label(alloc: Global, label: &Option<Text>, names: &mut List<Text>) -> Result<(), Memory>
    ensures { OnOk result (names.new ≡ names.old ++ option_to_list label.now) }
{
    match label {
        None => Ok(()),
        Some(label) => add(alloc, label, names),
    }
}

fn is_if(item: &Item) -> bool
    ensures { result ≡ spec.is_if item.now }
{
    match &item.kind {
        ItemKind::If(_, _, None) | ItemKind::If(_, _, Some(_)) => true,
        ItemKind::Declaration(_) | ItemKind::Integer(_) | ItemKind::Genvar(_) => false,
        ItemKind::Parameter(_, _) | ItemKind::Assign(_) | ItemKind::Always(_, _) => false,
        ItemKind::Initial(_) | ItemKind::Instance(_) | ItemKind::Generate(_) => false,
        ItemKind::For(_, _) => false,
    }
}

/// The written labels of a generate construct's blocks. An `if` alone in a block of another `if` is directly nested,
/// and its blocks belong to the scope around both (IEEE 1364-2005, section 12.4.2).
#[cycle(labels)]
#[tactic(auto, using(vl_tree::specs::ItemFalls::parts_fall, crate::proofs::Ahead::ahead))]
fn add_labels(alloc: Global, item: &Item, names: &mut List<Text>) -> Result<(), Memory>
    ensures { OnOk result (names.new ≡ names.old ++ spec.labels_of item.now) }
{
    match &item.kind {
        ItemKind::For(_, Block::Begin(_, label, _)) => add_label(alloc, label, names),
        ItemKind::For(_, Block::Region(_, _) | Block::Single(_)) => Ok(()),
        ItemKind::If(_, first, None) => add_block_labels(alloc, first, names),
        ItemKind::If(_, first, Some(second)) => {
            add_block_labels(alloc, first, names)?;
            add_block_labels(alloc, second, names)
        }
        ItemKind::Declaration(_) | ItemKind::Integer(_) | ItemKind::Genvar(_) => Ok(()),
        ItemKind::Parameter(_, _) | ItemKind::Assign(_) | ItemKind::Always(_, _) => Ok(()),
        ItemKind::Initial(_) | ItemKind::Instance(_) | ItemKind::Generate(_) => Ok(()),
    }
}

#[cycle(labels)]
fn add_block_labels(alloc: Global, block: &Block, names: &mut List<Text>) -> Result<(), Memory>
    ensures { OnOk result (names.new ≡ names.old ++ spec.block_labels (block_of block.now)) }
{
    match block {
        Block::Begin(_, label, _) => add_label(alloc, label, names),
        Block::Region(_, _) => Ok(()),
        Block::Single(item) => if is_if(item) {
            add_labels(alloc, item, names)
        } else {
            Ok(())
        },
    }
}

#[tactic(auto, using(crate::proofs::Ahead::ahead))]
fn add_item(alloc: Global, item: &Item, names: &mut List<Text>) -> Result<(), Memory>
    ensures { OnOk result (names.new ≡ names.old ++ spec.names_of item.now) }
{
    match &item.kind {
        ItemKind::Declaration(declaration) => {
            add_declared(alloc, declaration.names.as_slice(), names)
        }
        ItemKind::Integer(all) => add_declared(alloc, all.as_slice(), names),
        ItemKind::Genvar(all) => add_texts(alloc, all.as_slice(), names),
        ItemKind::Parameter(_, all) => add_parameters(alloc, all.as_slice(), names),
        ItemKind::Instance(instance) => add(alloc, &instance.name, names),
        ItemKind::Assign(_) | ItemKind::Always(_, _) | ItemKind::Initial(_) => Ok(()),
        ItemKind::Generate(_) => Ok(()),
        ItemKind::For(_, _) | ItemKind::If(_, _, None) | ItemKind::If(_, _, Some(_)) => {
            add_labels(alloc, item, names)
        }
    }
}

/// Those of items, in order (IEEE 1364-2005, section 12.4.3).
pub(crate) fn add_items(alloc: Global, all: &[Item], names: &mut List<Text>) -> Result<(), Memory>
    ensures { OnOk result (names.new ≡ names.old ++ spec.all_names (items all.now)) }
{
    for item in all {
        add_item(alloc, item, names)?;
    }
    Ok(())
}
