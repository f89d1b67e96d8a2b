//! Blocks of generate constructs.
ghost use Rattle.std.specs.Prelude.{◌≡◌, ◌≤◌, ◌++◌, List, IfOk, codes};
ghost use Rattle.vl_tree.specs.ItemView.{block as block_of};
ghost use Rattle.vl_size.specs.declared.decl.Decl.{Decl as SpecDecl};
ghost use Rattle.vl_mean.specs.Declarations as declarations;
ghost use Rattle.vl_mean.specs.Scopes.{Scope};

use crate::here::Here;
use crate::paths::inside_path;
use fv_text::{Memory, Text};
use std::alloc::Global;
use vl_elab_decls::declared_count;
use vl_elab_draft::Path;
use vl_elab_names::block_name;
use vl_size::Decl;
use vl_tree::{Block, Item, ItemKind};

/// Those that the item declares, and those behind them.
pub(crate) fn split_declared<'a>(item: &Item, decls: &'a [Decl]) -> (&'a [Decl], &'a [Decl])
    ensures own { (ss : List Scope) (rest : List SpecDecl) → decls.now ≡ declarations.declared_by ss item.now ++ rest
        → result.0.now ≡ declarations.declared_by ss item.now }
    ensures rest { (ss : List Scope) (rest : List SpecDecl) → decls.now ≡ declarations.declared_by ss item.now ++ rest
        → result.1.now ≡ rest }
{
    let count = declared_count(item).min(decls.len());
    decls.split_at(count)
}

/// How many generate constructs an item is to its scope.
pub(crate) fn constructs(item: &Item) -> u64
    ensures value { result ≡ declarations.constructs item.now }
    ensures few { result ≤ 1 }
{
    match &item.kind {
        ItemKind::For(_, _) | ItemKind::If(_, _, None) | ItemKind::If(_, _, Some(_)) => 1,
        ItemKind::Declaration(_) | ItemKind::Integer(_) | ItemKind::Genvar(_) => 0,
        ItemKind::Parameter(_, _) | ItemKind::Assign(_) | ItemKind::Always(_, _) => 0,
        ItemKind::Initial(_) | ItemKind::Instance(_) | ItemKind::Generate(_) => 0,
    }
}

fn name_with(alloc: Global, label: &Option<Text>, number: u64, here: &Here) -> Result<Text, Memory>
    ensures { IfOk result (λ text. text ≡ declarations.block_name here.now.names number label.now) }
{
    let set = here.names.set();
    let count = here.names.len();
    block_name(alloc, set, count, number, label)
}

/// The name of a block of construct `number` of the scope.
pub(crate) fn name_of(
    alloc: Global,
    block: &Block,
    number: u64,
    here: &Here,
) -> Result<Text, Memory>
    ensures { IfOk result (λ text. text
        ≡ declarations.block_name here.now.names number (declarations.label_of (block_of block.now))) }
{
    match block {
        Block::Begin(_, label, _) => name_with(alloc, label, number, here),
        Block::Region(_, _) | Block::Single(_) => name_with(alloc, &None, number, here),
    }
}

/// The path within the block.
pub(crate) fn path_of(
    alloc: Global,
    block: &Block,
    number: u64,
    here: &Here,
) -> Result<Path, Memory>
    ensures { IfOk result (λ path. path ≡ here.now.path
        ++ declarations.block_name here.now.names number (declarations.label_of (block_of block.now))
        ++ codes ".") }
{
    let name = name_of(alloc, block, number, here)?;
    inside_path(alloc, &here.path, &name)
}
