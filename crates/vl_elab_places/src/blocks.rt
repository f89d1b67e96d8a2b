//! What the turns of a loop add to an item, and where a block stands.
ghost use Rattle.std.specs.Prelude.{◌≡◌, IfOk, OnOk};
ghost use Rattle.vl_tree.specs.ItemView.{block as block_of};
ghost use Rattle.vl_mean.specs.Walk.{Place};
ghost use Rattle.vl_elab_spec.specs.Counts as counts;
ghost use Rattle.vl_elab_spec.specs.Meanings.{meanings_at};
ghost use Rattle.vl_elab_spec.specs.NodePlaces as places;
ghost use Rattle.vl_elab_scope.specs.Alike.{Alike};
ghost use Rattle.vl_elab_const.specs.Numbers.{HaveNumbers};
ghost use Rattle.vl_elab_places.specs.Passing as spec;

use crate::cursor::Cursor;
use crate::turns::pass_loop;
use fv_text::{Memory, Pos};
use std::alloc::Global;
use vl_elab_scope::Names;
use vl_tree::{Block, Item, ItemKind};

fn item_pos(item: &Item) -> Pos
    ensures { result ≡ counts.item_pos item.now }
{
    item.pos
}

/// Where a block stands: at its `begin` or `generate`, or where its one item stands.
pub(crate) fn block_pos(block: &Block) -> Pos
    ensures { result ≡ counts.block_pos (block_of block.now) }
{
    match block {
        Block::Begin(pos, _, _) | Block::Region(pos, _) => *pos,
        Block::Single(item) => item_pos(item),
    }
}

/// Behind the turns of a loop. `names`: what names mean at the item; `numbers`: the numbers of constants there, refused
/// or not.
pub(crate) fn pass_inner(
    alloc: Global,
    item: &Item,
    start: Cursor,
    names: &mut Names,
    numbers: &mut Names,
) -> Result<Cursor, Memory>
    ensures names { OnOk result (names.new ≡ names.old) }
    ensures numbers { OnOk result (numbers.new ≡ numbers.old) }
    ensures behind { IfOk result (λ k. (at : Place) → Alike names.old (meanings_at at)
        → HaveNumbers numbers.old at.scopes → k ≡ spec.passed (places.inner_places at item.now) start) }
{
    match &item.kind {
        ItemKind::For(head, _) => pass_loop(alloc, head, start, names, numbers),
        ItemKind::If(_, _, None) | ItemKind::If(_, _, Some(_)) => Ok(start),
        ItemKind::Declaration(_) | ItemKind::Integer(_) | ItemKind::Genvar(_) => Ok(start),
        ItemKind::Parameter(_, _) | ItemKind::Assign(_) | ItemKind::Always(_, _) => Ok(start),
        ItemKind::Initial(_) | ItemKind::Instance(_) | ItemKind::Generate(_) => Ok(start),
    }
}
