ghost use Rattle.std.specs.Prelude.{◌≡◌, ℕ, None};
ghost use Rattle.fv_bit_sets.specs.Cells.{AreRising, IsBefore};
ghost use Rattle.fv_bit_sets.specs.Runs.{IsRunOf};

use crate::step::Step;

/// Bits that each cell has, up to the one of `past`. None where no cell behind has others.
#[derive(Debug, Clone, Copy)]
pub(crate) struct Run {
    pub(crate) mask: u128,
    pub(crate) past: Option<u64>,
}

/// The run that the cell stands in, where the one before the steps is this.
fn run_in(steps: &[Step], before: Run, cell: u64) -> Run
    requires rising { AreRising 0 before.past steps.now }
    requires inside { IsBefore cell before.past }
    ensures { IsRunOf before.mask before.past steps.now cell result }
{
    if steps.len() == 0 {
        return before;
    }
    let middle = steps.len() / 2;
    let step = steps[middle];
    if cell < step.cell {
        let lower = Run {
            mask: before.mask,
            past: Some(step.cell),
        };
        run_in(&steps[..middle], lower, cell)
    } else {
        let upper = Run {
            mask: step.mask,
            past: before.past,
        };
        run_in(&steps[middle + 1..], upper, cell)
    }
}

/// The run that the cell stands in.
pub(crate) fn run_at(steps: &[Step], cell: u64) -> Run
    requires { AreRising 0 None steps.now }
    ensures { IsRunOf 0 None steps.now cell result }
{
    let all = Run {
        mask: 0,
        past: None,
    };
    run_in(steps, all, cell)
}
