//! How far a generate loop goes by what has a value in its head.
ghost use Rattle.std.specs.Prelude.{◌≡◌, ◌&&◌, IfOk, OnOk};
ghost use Rattle.vl_mean.specs.Walk.{Place};
ghost use Rattle.vl_elab_spec.specs.Items as items;
ghost use Rattle.vl_elab_spec.specs.Meanings.{meanings_at};
ghost use Rattle.vl_elab_scope.specs.Alike.{Alike};
ghost use Rattle.vl_elab_const.specs.Numbers.{HaveNumbers};
ghost use Rattle.vl_elab_check_item.specs.TurnParts as spec;

use crate::head::has_value;
use crate::turn::enter_turn;
use fv_text::Memory;
use std::alloc::Global;
use vl_elab_const::genvar_value;
use vl_elab_scope::Names;
use vl_mean::Const;
use vl_tree::LoopHead;

/// Which parts of a loop's head have values. A constant whose own declaration is refused has none, nor has what names
/// it; by what has none no turn begins.
#[derive(Clone, Copy)]
pub struct HeadValues {
    /// The start and the condition: else the loop has no turn.
    pub turns: bool,
    /// The step: else no turn comes behind the first one.
    pub further: bool,
}

/// In the scope of the first turn.
fn first_values(
    alloc: Global,
    start: bool,
    head: &LoopHead,
    names: &Names,
) -> Result<HeadValues, Memory>
    ensures turns { IfOk result (λ v. v.turns ≡ (start && items.has_value names.now head.now.condition)) }
    ensures further { IfOk result (λ v. v.further ≡ items.has_value names.now head.now.next) }
{
    let condition = has_value(alloc, &head.condition, names)?;
    let further = has_value(alloc, &head.next, names)?;
    Ok(HeadValues {
        turns: start && condition,
        further,
    })
}

fn values_from(
    alloc: Global,
    head: &LoopHead,
    first: Const,
    names: &mut Names,
) -> Result<HeadValues, Memory>
    ensures names { OnOk result (names.new ≡ names.old) }
    ensures turns { IfOk result (λ v. v.turns ≡ (items.has_value names.old head.now.start
        && items.has_value (spec.in_turn head.now.variable first names.old) head.now.condition)) }
    ensures further { IfOk result (λ v. v.further
        ≡ items.has_value (spec.in_turn head.now.variable first names.old) head.now.next) }
{
    let start = has_value(alloc, &head.start, names)?;
    enter_turn(alloc, &head.variable, first, names)?;
    let values = first_values(alloc, start, head, names)?;
    names.leave();
    Ok(values)
}

/// Which parts of a loop's head have values. `names`: what names mean at the loop; `numbers`: the numbers that
/// constants have there by the definitions, refused or not.
pub fn head_values(
    alloc: Global,
    head: &LoopHead,
    names: &mut Names,
    numbers: &Names,
) -> Result<HeadValues, Memory>
    ensures names { OnOk result (names.new ≡ names.old) }
    ensures values { IfOk result (λ v. (at : Place) → Alike names.old (meanings_at at)
        → HaveNumbers numbers.now at.scopes → spec.GoesBy v head.now at) }
{
    let first = genvar_value(alloc, &head.start, numbers)?;
    let values = values_from(alloc, head, first, names)?;
    Ok(values)
}
