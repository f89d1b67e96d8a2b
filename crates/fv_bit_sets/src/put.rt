ghost use Rattle.std.specs.Prelude.{◌≡◌, ◌≤◌, ℕ, OnOk, Some};
ghost use Rattle.fv_bit_sets.specs.Cells.{mask_at, AreRising, Puts};

use crate::step::Step;
use fv_text::Memory;
use std::alloc::Global;

/// The bits of all cells behind the steps.
fn last_mask(steps: &[Step]) -> u128
    ensures { (past cell : ℕ) → AreRising 0 (Some past) steps.now → past ≤ cell
        → mask_at steps.now cell ≡ result }
{
    let count = steps.len();
    if count == 0 {
        return 0;
    }
    steps[count - 1].mask
}

/// Puts the step behind the others, where its cell has other bits than the one before.
pub(crate) fn put(steps: &mut Vec<Step>, step: Step) -> Result<(), Memory>
    requires { AreRising 0 (Some step.cell) steps.old.items }
    ensures { OnOk result (Puts steps.old.items step steps.new.items) }
{
    if last_mask(steps.as_slice()) == step.mask {
        return Ok(());
    }
    if steps.push(step).is_err() {
        return Err(Memory);
    }
    Ok(())
}
