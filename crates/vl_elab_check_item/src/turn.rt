//! A turn of a generate loop: its scope, and what leads to the next one.
ghost use Rattle.std.specs.Prelude.{◌≡◌, ◌∷◌, [], true, Some, None, IfOk, OnOk, OnErr, if◌then◌else◌};
ghost use Rattle.vl_elab_spec.specs.Meanings as meanings;
ghost use Rattle.vl_elab_const.specs.Numbers.{genvar_number, holds};
ghost use Rattle.vl_elab_check_item.specs.TurnParts as spec;

use fv_text::{Memory, Text};
use std::alloc::Global;
use vl_elab_const::value_in_turn;
use vl_elab_scope::{Level, Meaning, Names};
use vl_mean::Const;
use vl_tree::LoopHead;

/// A generate loop has at most so many turns. A rule of this project.
pub const MOST_TURNS: u32 = 4_096;

fn one_name(alloc: Global, variable: &Text, value: Const) -> Result<Level, Memory>
    ensures { IfOk result (λ l. l ≡ (variable.now, meanings.constant value true) ∷ []) }
{
    let mut level = Level::new(alloc);
    level.add(variable.copied(alloc)?, Meaning::Constant(value, true))?;
    Ok(level)
}

/// Enters the scope of a turn, in which the loop's variable is a constant.
pub fn enter_turn(
    alloc: Global,
    variable: &Text,
    value: Const,
    names: &mut Names,
) -> Result<(), Memory>
    ensures ok { OnOk result (names.new ≡ spec.in_turn variable.now value names.old) }
    ensures err { OnErr result (names.new ≡ names.old) }
{
    let level = one_name(alloc, variable, value)?;
    names.enter(level)
}

/// The value of the turn behind the one with this value. None exactly where that one doesn't begin, as its condition
/// doesn't hold.
pub fn next_turn(
    alloc: Global,
    head: &LoopHead,
    value: Const,
    numbers: &mut Names,
) -> Result<Option<Const>, Memory>
    ensures numbers { OnOk result (numbers.new ≡ numbers.old) }
    ensures next { IfOk result (λ o. let inner = spec.in_turn head.now.variable value numbers.old in
        o ≡ (if holds inner head.now.condition then Some (genvar_number inner head.now.next) else None)) }
{
    enter_turn(alloc, &head.variable, value, numbers)?;
    let next = value_in_turn(alloc, head, numbers)?;
    numbers.leave();
    Ok(next)
}
