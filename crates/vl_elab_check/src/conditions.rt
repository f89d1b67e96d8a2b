//! Conditions of generate `if`s.
ghost use Rattle.std.specs.Prelude.{◌≡◌, Some, None, IfOk, if◌then◌else◌};
ghost use Rattle.std.specs.Option.{option_copied, option_map};
ghost use Rattle.vl_tree.specs.ItemView.{block as block_of};
ghost use Rattle.vl_elab_spec.specs.Items.{has_value};
ghost use Rattle.vl_elab_spec.specs.Within as within;
ghost use Rattle.vl_elab_const.specs.Numbers as numbers_spec;

use fv_text::Memory;
use std::alloc::Global;
use vl_elab_check_item::has_value as is_valued;
use vl_elab_const::is_true_in;
use vl_elab_decls::Inside;
use vl_elab_scope::blocks::chosen;
use vl_tree::{Block, Expr};

/// Whether the condition holds. None exactly where it has no value.
pub(crate) fn condition_value(
    alloc: Global,
    condition: &Expr,
    inside: &Inside,
) -> Result<Option<bool>, Memory>
    ensures { IfOk result (λ o. o ≡ (if has_value inside.now.names condition.now
        then Some (numbers_spec.holds inside.now.numbers condition.now) else None)) }
{
    let valued = is_valued(alloc, condition, &inside.names)?;
    if valued {
        Ok(Some(is_true_in(alloc, condition, &inside.numbers)?))
    } else {
        Ok(None)
    }
}

/// The block of an `if` whose condition holds or not, or has no value; None where there is none.
pub(crate) fn chosen_by<'a>(
    holds: Option<bool>,
    first: &'a Block,
    second: &'a Option<Block>,
) -> Option<&'a Block>
    ensures { option_map block_of (option_copied result)
        ≡ within.chosen_by holds (block_of first.now) (option_map block_of second.now) }
{
    match holds {
        None => None,
        Some(holds) => chosen(holds, first, second),
    }
}
