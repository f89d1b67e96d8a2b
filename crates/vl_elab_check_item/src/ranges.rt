//! Declared ranges: where they are refused, and how wide they are.
ghost use Rattle.std.specs.Prelude.{◌≡◌, ◌&&◌, Some, None, IfOk, if◌then◌else◌};
ghost use Rattle.fv_bits.specs.Bits.{as_int};
ghost use Rattle.vl_size.specs.Size.{is_bound};
ghost use Rattle.vl_size.specs.Table.{span};
ghost use Rattle.vl_elab_spec.specs.Items as items;
ghost use Rattle.vl_elab_spec.specs.Refused.{lowest};
ghost use Rattle.vl_elab_check_item.specs.ItemParts as spec;

use fv_text::{Memory, Pos};
use std::alloc::Global;
use vl_elab_check_expr::{far_fault, first_of, own_fault, too_wide};
use vl_elab_scope::{Names, value_of};
use vl_elab_spec::ElabFault;
use vl_mean::widths::bound;
use vl_size::Own;
use vl_tree::Range;

/// Of all refusals of a declared range the one with the lowest number, and of one number the one at the earliest
/// place. None exactly where it isn't refused: its bounds are constants of 32 signed bits.
#[tactic(auto, using(vl_elab_check_expr::proofs::Lowest::lowest_parts))]
pub fn range_fault(
    alloc: Global,
    range: &Option<Range>,
    names: &Names,
) -> Result<Option<ElabFault>, Memory>
    ensures { IfOk result (λ g. g ≡ lowest (items.range_refusals names.now range.now)) }
{
    match range {
        None => Ok(None),
        Some(range) => {
            let left = own_fault(alloc, &range.left, true, names)?;
            let right = own_fault(alloc, &range.right, true, names)?;
            let far_left = far_fault(alloc, range.pos, &range.left, names)?;
            let far_right = far_fault(alloc, range.pos, &range.right, names)?;
            Ok(first_of(first_of(first_of(left, right), far_left), far_right))
        }
    }
}

/// How many places lie from one bound to the other, where both have 32 signed bits.
fn span_between(left: Own, right: Own) -> Option<u64>
    ensures { let l = as_int left.width left.signed left.number in
        let r = as_int right.width right.signed right.number in
        result ≡ (if is_bound l && is_bound r then Some (span l r) else None) }
{
    let left = bound(left)?;
    let right = bound(right)?;
    Some((left - right).unsigned_abs() + 1)
}

/// The width in bits of what has this range, without a limit. None exactly where a bound is no constant of 32 signed
/// bits.
pub(crate) fn known_width(
    alloc: Global,
    range: &Option<Range>,
    names: &Names,
) -> Result<Option<u64>, Memory>
    ensures { IfOk result (λ w. w ≡ spec.known_width names.now range.now) }
{
    match range {
        None => Ok(Some(1)),
        Some(range) => {
            let left = value_of(alloc, &range.left, names)?;
            let right = value_of(alloc, &range.right, names)?;
            match left {
                None => Ok(None),
                Some(l) => match right {
                    None => Ok(None),
                    Some(r) => Ok(span_between(l, r)),
                },
            }
        }
    }
}

/// Where what is declared at a place has more than 128 bits.
pub fn width_fault(
    alloc: Global,
    pos: Pos,
    range: &Option<Range>,
    names: &Names,
) -> Result<Option<ElabFault>, Memory>
    ensures { IfOk result (λ g. g ≡ lowest (items.width_refusals names.now pos range.now)) }
{
    let width = known_width(alloc, range, names)?;
    Ok(too_wide(pos, width))
}
