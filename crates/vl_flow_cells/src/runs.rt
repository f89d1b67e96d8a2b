ghost use Rattle.std.specs.Prelude.{◌≡◌, ℕ, ◌||◌, IfOk, OnOk};
ghost use Rattle.fv_bit_sets.specs.Cells.{has};
ghost use Rattle.vl_flow_cells.specs.Numbered.{any_takes, some_takes};

use crate::cell_run::CellRun;
use fv_bit_sets::Bits;
use fv_text::Memory;
use std::alloc::Global;

/// Puts the run behind the others, where there is one.
pub fn put(runs: &mut Vec<CellRun>, run: Option<CellRun>) -> Result<(), Memory>
    ensures { OnOk result ((c i : ℕ)
        → any_takes runs.new.items c i ≡ (any_takes runs.old.items c i || some_takes run c i)) }
{
    if let Some(run) = run {
        if runs.push(run).is_err() {
            return Err(Memory);
        }
    }
    Ok(())
}

/// The bits of all runs, in time about linear in them.
pub fn bits_of(alloc: Global, runs: &[CellRun]) -> Result<Bits, Memory>
    ensures { IfOk result (λ bits. (c i : ℕ) → has bits c i ≡ any_takes runs.now c i) }
{
    if runs.len() == 0 {
        return Ok(Bits::none(alloc));
    }
    if runs.len() == 1 {
        let run = runs[0];
        return Ok(Bits::of_cells(alloc, run.first, run.past, run.mask)?);
    }
    let middle = runs.len() / 2;
    let first = bits_of(alloc, &runs[..middle])?;
    let second = bits_of(alloc, &runs[middle..])?;
    Ok(first.with(&second)?)
}
