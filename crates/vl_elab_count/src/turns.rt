//! Nodes of the turns of a generate loop.
ghost use Rattle.std.specs.Prelude.{◌≡◌, IfOk, OnOk};
ghost use Rattle.vl_mean.specs.ConstantFaults.{capped};
ghost use Rattle.vl_mean.specs.Walk.{Place, most_turns};
ghost use Rattle.vl_elab_spec.specs.Counts as counts;
ghost use Rattle.vl_elab_spec.specs.Meanings.{meanings_at};
ghost use Rattle.vl_elab_scope.specs.Alike.{Alike};
ghost use Rattle.vl_elab_const.specs.Numbers.{HaveNumbers, genvar_number};
ghost use Rattle.vl_elab_check_item.specs.TurnParts.{GoesBy};
ghost use Rattle.vl_elab_count.specs.Counts as spec;

use crate::exprs::expr_nodes;
use fv_text::Memory;
use std::alloc::Global;
use vl_elab_check_item::{HeadValues, MOST_TURNS, head_values, next_turn};
use vl_elab_const::genvar_value;
use vl_elab_scope::Names;
use vl_mean::Const;
use vl_mean::widths::plus;
use vl_tree::LoopHead;

/// Each turn with what leads to the next one, from the one with this value on.
fn turns(alloc: Global, head: &LoopHead, start: Const, numbers: &mut Names) -> Result<u64, Memory>
    ensures numbers { OnOk result (numbers.new ≡ numbers.old) }
    ensures count { IfOk result (λ n. n ≡ capped (spec.turn_nodes most_turns numbers.old head.now start)) }
{
    let condition = expr_nodes(&head.condition);
    let step = expr_nodes(&head.next);
    let mut total = 0;
    let mut value = start;
    let mut left = MOST_TURNS;
    while left > 0 {
        let next = next_turn(alloc, head, value, numbers)?;
        total = plus(total, condition);
        match next {
            None => return Ok(total),
            Some(next) => {
                total = plus(total, step);
                value = next;
                left -= 1;
            }
        }
    }
    Ok(plus(total, condition))
}

fn all_turns(alloc: Global, head: &LoopHead, numbers: &mut Names) -> Result<u64, Memory>
    ensures numbers { OnOk result (numbers.new ≡ numbers.old) }
    ensures count { IfOk result (λ n. n
        ≡ capped (spec.turn_nodes most_turns numbers.old head.now (genvar_number numbers.old head.now.start))) }
{
    let start = genvar_value(alloc, &head.start, numbers)?;
    turns(alloc, head, start, numbers)
}

/// The first turn alone.
fn one_turn(
    alloc: Global,
    head: &LoopHead,
    start: Const,
    numbers: &mut Names,
) -> Result<u64, Memory>
    ensures numbers { OnOk result (numbers.new ≡ numbers.old) }
    ensures count { IfOk result (λ n. n ≡ capped (spec.one_turn_nodes numbers.old head.now start)) }
{
    let condition = expr_nodes(&head.condition);
    let next = next_turn(alloc, head, start, numbers)?;
    if next.is_some() {
        Ok(plus(condition, expr_nodes(&head.next)))
    } else {
        Ok(condition)
    }
}

fn first_turn_nodes(alloc: Global, head: &LoopHead, numbers: &mut Names) -> Result<u64, Memory>
    ensures numbers { OnOk result (numbers.new ≡ numbers.old) }
    ensures count { IfOk result (λ n. n
        ≡ capped (spec.one_turn_nodes numbers.old head.now (genvar_number numbers.old head.now.start))) }
{
    let start = genvar_value(alloc, &head.start, numbers)?;
    one_turn(alloc, head, start, numbers)
}

/// `further`: the step has a value.
fn begun_nodes(
    alloc: Global,
    further: bool,
    head: &LoopHead,
    numbers: &mut Names,
) -> Result<u64, Memory>
    ensures numbers { OnOk result (numbers.new ≡ numbers.old) }
    ensures count { IfOk result (λ n. n ≡ capped (spec.begun_nodes further numbers.old head.now)) }
{
    if further {
        all_turns(alloc, head, numbers)
    } else {
        first_turn_nodes(alloc, head, numbers)
    }
}

/// By what has a value in the head.
fn valued_nodes(
    alloc: Global,
    head: &LoopHead,
    values: HeadValues,
    numbers: &mut Names,
) -> Result<u64, Memory>
    ensures numbers { OnOk result (numbers.new ≡ numbers.old) }
    ensures count { IfOk result (λ n. (at : Place) → HaveNumbers numbers.old at.scopes
        → GoesBy values head.now at → n ≡ capped (counts.loop_nodes head.now at)) }
{
    let begins = values.turns;
    if begins {
        return begun_nodes(alloc, values.further, head, numbers);
    }
    Ok(expr_nodes(&head.condition))
}

/// The nodes of the turns of a loop that begin. `names`: what names mean at the loop; `numbers`: the numbers of
/// constants there, refused or not.
pub(crate) fn loop_nodes(
    alloc: Global,
    head: &LoopHead,
    names: &mut Names,
    numbers: &mut Names,
) -> Result<u64, Memory>
    ensures names { OnOk result (names.new ≡ names.old) }
    ensures numbers { OnOk result (numbers.new ≡ numbers.old) }
    ensures count { IfOk result (λ n. (at : Place) → Alike names.old (meanings_at at)
        → HaveNumbers numbers.old at.scopes → n ≡ capped (counts.loop_nodes head.now at)) }
{
    let values = head_values(alloc, head, names, numbers)?;
    let nodes = valued_nodes(alloc, head, values, numbers)?;
    Ok(nodes)
}
