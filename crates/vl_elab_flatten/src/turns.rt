//! Turns of generate loops: their values.
ghost use Rattle.std.specs.Prelude.{◌≡◌, List, Some, None, true, IfOk, OnOk, if◌then◌else◌};
ghost use Rattle.fv_bits.specs.Bits.{as_int};
ghost use Rattle.vl_size.specs.Size.{is_bound};
ghost use Rattle.vl_mean.specs.Scopes.{Scope};
ghost use Rattle.vl_mean.specs.Walk as walk;
ghost use Rattle.vl_elab_const.specs.Numbers.{HaveNumbers};
ghost use Rattle.vl_elab_flatten.specs.Ready.{IsTurn};

use fv_text::Memory;
use std::alloc::Global;
use vl_elab_check_item::next_turn;
use vl_elab_const::genvar_value;
use vl_elab_scope::Names;
use vl_mean::Const;
use vl_tree::LoopHead;

/// The value of the first turn.
pub(crate) fn first_value(alloc: Global, head: &LoopHead, numbers: &Names) -> Result<Const, Memory>
    ensures value { IfOk result (λ c. (ss : List Scope) → HaveNumbers numbers.now ss
        → c ≡ walk.first_turn head.now ss) }
    ensures bounded { IfOk result (λ c. IsTurn c) }
{
    genvar_value(alloc, &head.start, numbers)
}

/// The value of the turn behind the one with this value. None exactly where that one doesn't begin.
pub(crate) fn next_value(
    alloc: Global,
    head: &LoopHead,
    value: Const,
    numbers: &mut Names,
) -> Result<Option<Const>, Memory>
    ensures numbers { OnOk result (numbers.new ≡ numbers.old) }
    ensures next { IfOk result (λ c. (ss : List Scope) → HaveNumbers numbers.old ss
        → c ≡ (if walk.goes_on head.now ss value then Some (walk.next_turn head.now ss value) else None)) }
{
    Ok(next_turn(alloc, head, value, numbers)?)
}
