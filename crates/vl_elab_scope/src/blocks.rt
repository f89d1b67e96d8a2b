//! Blocks of generate constructs.
ghost use Rattle.std.specs.Prelude.{◌≡◌};
ghost use Rattle.std.specs.Option.{option_copied, option_map};
ghost use Rattle.vl_tree.specs.Item.{items};
ghost use Rattle.vl_tree.specs.ItemView.{block as block_of};
ghost use Rattle.vl_mean.specs.Declarations as declarations;
ghost use Rattle.vl_elab_spec.specs.Within.{block_items, chosen_block, nested_if};

use std::slice;
use vl_tree::{Block, Item, ItemKind};

/// The items that stand in a block.
pub fn items_of(block: &Block) -> &[Item]
    ensures { items result.now ≡ block_items (block_of block.now) }
{
    match block {
        Block::Begin(_, _, all) => all.as_slice(),
        Block::Region(_, all) => all.as_slice(),
        Block::Single(item) => slice::from_ref(&**item),
    }
}

fn is_if(item: &Item) -> bool
    ensures { result ≡ declarations.is_if item.now }
{
    matches!(&item.kind, ItemKind::If(_, _, _))
}

/// An `if` alone in a block, which makes no scope (IEEE 1364-2005, section 12.4.2).
pub fn nested(block: &Block) -> Option<&Item>
    ensures { option_copied result ≡ nested_if (block_of block.now) }
{
    match block {
        Block::Begin(_, _, _) | Block::Region(_, _) => None,
        Block::Single(item) => if is_if(item) { Some(&**item) } else { None },
    }
}

/// The block of an `if` whose condition holds or not; None where it has no `else` that would be it.
pub fn chosen<'a>(holds: bool, first: &'a Block, second: &'a Option<Block>) -> Option<&'a Block>
    ensures { option_map block_of (option_copied result)
        ≡ chosen_block holds (block_of first.now) (option_map block_of second.now) }
{
    if holds { Some(first) } else { second.as_ref() }
}
