//! Turns of generate loops: when they begin, and their scopes.
ghost use Rattle.std.specs.Prelude.{◌≡◌, ℕ, List, Some, None, IfOk, OnOk, drop, if◌then◌else◌};
ghost use Rattle.vl_mean.specs.Scopes.{Scope};
ghost use Rattle.vl_mean.specs.Walk as walk;
ghost use Rattle.vl_mean.specs.Walk.{Place};
ghost use Rattle.vl_elab_spec.specs.Items.{is_valued};
ghost use Rattle.vl_elab_const.specs.Numbers.{HaveNumbers};
ghost use Rattle.vl_elab_spec.specs.Meanings.{Names as Scoped};
ghost use Rattle.vl_elab_check_item.specs.TurnParts.{in_turn};
ghost use Rattle.vl_elab_params.specs.declared.reached.Reached.{Reached as SpecReached};
ghost use Rattle.vl_elab_params.specs.Reached.{over};
ghost use Rattle.vl_elab_check.specs.Standing.{IsWithin};

use fv_text::Memory;
use std::alloc::Global;
use vl_elab_check_item::{HeadValues, MOST_TURNS, enter_turn, head_values, next_turn};
use vl_elab_const::genvar_value;
use vl_elab_decls::Inside;
use vl_elab_params::Reached;
use vl_mean::Const;
use vl_tree::LoopHead;

/// The value of the first turn.
pub(crate) fn first_value(alloc: Global, head: &LoopHead, inside: &Inside) -> Result<Const, Memory>
    ensures { IfOk result (λ c. (ss : List Scope) → HaveNumbers inside.now.numbers ss
        → c ≡ walk.first_turn head.now ss) }
{
    Ok(genvar_value(alloc, &head.start, &inside.numbers)?)
}

fn limit_by(values: HeadValues) -> u32
    ensures { result ≡ (if values.turns then (if values.further then walk.most_turns else 1) else 0) }
{
    if !values.turns {
        return 0;
    }
    if values.further { MOST_TURNS } else { 1 }
}

/// How many turns a loop may have, by what has a value in its head: at most 4,096.
pub(crate) fn turn_limit(alloc: Global, head: &LoopHead, inside: &mut Inside) -> Result<u32, Memory>
    ensures inside { OnOk result (inside.new ≡ inside.old) }
    ensures limit { IfOk result (λ n. (at : Place) (path : List (List ℕ)) → IsWithin inside.old path at
        → n ≡ walk.turn_limit is_valued head.now at) }
{
    let values = head_values(alloc, head, &mut inside.names, &inside.numbers)?;
    Ok(limit_by(values))
}

/// The value of the turn behind the one with this value. None exactly where that one doesn't begin.
pub(crate) fn next_value(
    alloc: Global,
    head: &LoopHead,
    value: Const,
    inside: &mut Inside,
) -> Result<Option<Const>, Memory>
    ensures inside { OnOk result (inside.new ≡ inside.old) }
    ensures next { IfOk result (λ c. (at : Place) (path : List (List ℕ)) → IsWithin inside.old path at
        → c ≡ (if walk.goes_on head.now at.scopes value then Some (walk.next_turn head.now at.scopes value)
        else None)) }
{
    Ok(next_turn(alloc, head, value, &mut inside.numbers)?)
}

/// Enters the scope of a turn, behind what stands before the loop.
pub(crate) fn enter(
    alloc: Global,
    head: &LoopHead,
    value: Const,
    inside: &mut Inside,
    reached: &mut Reached,
) -> Result<(), Memory>
    ensures { OnOk result (inside.new ≡ record inside.old {
      names = in_turn head.now.variable value inside.old.names;
      numbers = in_turn head.now.variable value inside.old.numbers;
      around = in_turn head.now.variable value (over reached.old inside.old.around);
    }) }
{
    enter_turn(alloc, &head.variable, value, &mut inside.names)?;
    enter_turn(alloc, &head.variable, value, &mut inside.numbers)?;
    reached.hand_over(alloc, &mut inside.around)?;
    enter_turn(alloc, &head.variable, value, &mut inside.around)?;
    Ok(())
}

/// Leaves it.
pub(crate) fn leave(alloc: Global, inside: &mut Inside, reached: &mut Reached)
    ensures { (r : SpecReached) (outer : List Scoped) → drop 1 inside.old.around ≡ over r outer
        → (reached.new ≡ r) × (inside.new ≡ record inside.old {
          names = drop 1 inside.old.names;
          numbers = drop 1 inside.old.numbers;
          around = outer;
        }) }
{
    inside.names.leave();
    inside.numbers.leave();
    inside.around.leave();
    reached.take_back(alloc, &mut inside.around);
}
