//! The nodes of the turns of a generate loop, one behind the other.
ghost use Rattle.std.specs.Prelude.{◌≡◌, IfOk, OnOk};
ghost use Rattle.vl_mean.specs.Walk.{Place, most_turns};
ghost use Rattle.vl_elab_spec.specs.Meanings.{meanings_at};
ghost use Rattle.vl_elab_spec.specs.NodePlaces.{loop_places};
ghost use Rattle.vl_elab_scope.specs.Alike.{Alike};
ghost use Rattle.vl_elab_const.specs.Numbers.{HaveNumbers, genvar_number};
ghost use Rattle.vl_elab_places.specs.Passing as spec;

use crate::cursor::Cursor;
use crate::exprs::pass_expr;
use fv_text::Memory;
use std::alloc::Global;
use vl_elab_check_item::{HeadValues, MOST_TURNS, head_values, next_turn};
use vl_elab_const::genvar_value;
use vl_elab_scope::Names;
use vl_mean::Const;
use vl_tree::LoopHead;

/// Behind the turns from the one with this value on.
fn pass_turns(
    alloc: Global,
    head: &LoopHead,
    first: Const,
    start: Cursor,
    numbers: &mut Names,
) -> Result<Cursor, Memory>
    ensures numbers { OnOk result (numbers.new ≡ numbers.old) }
    ensures behind { IfOk result (λ k. k ≡ spec.turns_passed most_turns numbers.old head.now first start) }
{
    let mut at = start;
    let mut value = first;
    let mut left = MOST_TURNS;
    while left > 0 {
        let next = next_turn(alloc, head, value, numbers)?;
        at = pass_expr(&head.condition, at);
        match next {
            None => return Ok(at),
            Some(next) => {
                at = pass_expr(&head.next, at);
                value = next;
                left -= 1;
            }
        }
    }
    Ok(pass_expr(&head.condition, at))
}

fn pass_all_turns(
    alloc: Global,
    head: &LoopHead,
    start: Cursor,
    numbers: &mut Names,
) -> Result<Cursor, Memory>
    ensures numbers { OnOk result (numbers.new ≡ numbers.old) }
    ensures behind { IfOk result (λ k. k ≡ spec.turns_passed most_turns numbers.old head.now
        (genvar_number numbers.old head.now.start) start) }
{
    let first = genvar_value(alloc, &head.start, numbers)?;
    pass_turns(alloc, head, first, start, numbers)
}

/// Behind the first turn alone.
fn pass_turn(
    alloc: Global,
    head: &LoopHead,
    first: Const,
    start: Cursor,
    numbers: &mut Names,
) -> Result<Cursor, Memory>
    ensures numbers { OnOk result (numbers.new ≡ numbers.old) }
    ensures behind { IfOk result (λ k. k ≡ spec.turn_passed numbers.old head.now first start) }
{
    let next = next_turn(alloc, head, first, numbers)?;
    let behind = pass_expr(&head.condition, start);
    if next.is_some() {
        Ok(pass_expr(&head.next, behind))
    } else {
        Ok(behind)
    }
}

fn pass_first_turn(
    alloc: Global,
    head: &LoopHead,
    start: Cursor,
    numbers: &mut Names,
) -> Result<Cursor, Memory>
    ensures numbers { OnOk result (numbers.new ≡ numbers.old) }
    ensures behind { IfOk result (λ k. k ≡ spec.turn_passed numbers.old head.now
        (genvar_number numbers.old head.now.start) start) }
{
    let first = genvar_value(alloc, &head.start, numbers)?;
    pass_turn(alloc, head, first, start, numbers)
}

/// `further`: the step has a value.
fn pass_begun(
    alloc: Global,
    further: bool,
    head: &LoopHead,
    start: Cursor,
    numbers: &mut Names,
) -> Result<Cursor, Memory>
    ensures numbers { OnOk result (numbers.new ≡ numbers.old) }
    ensures behind { IfOk result (λ k. k ≡ spec.begun_passed further numbers.old head.now start) }
{
    if further {
        pass_all_turns(alloc, head, start, numbers)
    } else {
        pass_first_turn(alloc, head, start, numbers)
    }
}

/// By what has a value in the head.
fn pass_valued(
    alloc: Global,
    values: HeadValues,
    head: &LoopHead,
    start: Cursor,
    numbers: &mut Names,
) -> Result<Cursor, Memory>
    ensures numbers { OnOk result (numbers.new ≡ numbers.old) }
    ensures behind { IfOk result (λ k. k ≡ spec.loop_passed values numbers.old head.now start) }
{
    let begins = values.turns;
    if begins {
        return pass_begun(alloc, values.further, head, start, numbers);
    }
    Ok(pass_expr(&head.condition, start))
}

/// Behind the turns of a loop that begin. `names`: what names mean at the loop; `numbers`: the numbers of constants
/// there, refused or not.
pub(crate) fn pass_loop(
    alloc: Global,
    head: &LoopHead,
    start: Cursor,
    names: &mut Names,
    numbers: &mut Names,
) -> Result<Cursor, Memory>
    ensures names { OnOk result (names.new ≡ names.old) }
    ensures numbers { OnOk result (numbers.new ≡ numbers.old) }
    ensures behind { IfOk result (λ k. (at : Place) → Alike names.old (meanings_at at)
        → HaveNumbers numbers.old at.scopes → k ≡ spec.passed (loop_places head.now at) start) }
{
    let values = head_values(alloc, head, names, numbers)?;
    let behind = pass_valued(alloc, values, head, start, numbers)?;
    Ok(behind)
}
