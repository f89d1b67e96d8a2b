ghost use Rattle.std.specs.Prelude.{◌≡◌};
ghost use Rattle.lrat_check.specs.Steps.{step_number};
ghost use Rattle.lrat_check.specs.declared.step.StepFault.TheVariants as fault;

use fv_text::{List, Memory};
use std::alloc::{AllocError, AllocFailed};
use thiserror::Error;

/// A step of a refutation.
#[derive(Debug, Drop)]
pub enum Step {
    /// Adds a clause, which the hints lead to.
    Add {
        id: u64,
        lits: List<i64>,
        hints: List<i64>,
    },
    /// The clauses with these ids are held no longer.
    Delete {
        id: u64,
        ids: List<u64>,
    },
}

/// The steps refute the clauses: the clause with this id is empty.
#[derive(Debug, Clone, Copy, PartialEq, Eq)]
pub struct Refuted {
    pub id: u64,
}

/// Why steps do not refute. `id` is that of the step.
#[derive(Debug, Clone, Copy, PartialEq, Eq, Error)]
pub enum StepFault {
    /// The hint, or the deleted id, isn't held.
    #[error("step {id}: no clause {hint} is held")]
    NoClause { id: u64, hint: i128 },
    /// Two literals of the hint's clause are open.
    #[error("step {id}: the clause {hint} has two open literals")]
    NotUnit { id: u64, hint: i128 },
    /// The hints end without a false clause.
    #[error("step {id}: no hint is false")]
    NoConflict { id: u64 },
    /// The added id isn't above all before it, those of the formula included.
    #[error("step {id}: the id isn't above those before it")]
    IdOrder { id: u64 },
    /// A hint is negative, as those of RAT steps are.
    #[error("step {id}: a hint is negative")]
    Rat { id: u64 },
    /// No step adds the empty clause.
    #[error("no step is the empty clause")]
    NoEmpty,
    #[error("no memory is left")]
    Memory,
}

impl StepFault {
    /// The number in print.
    pub fn number(self) -> u8
        ensures { result ≡ step_number self }
    {
        match self {
            StepFault::NoClause { .. } => 1,
            StepFault::NotUnit { .. } => 2,
            StepFault::NoConflict { .. } => 3,
            StepFault::IdOrder { .. } => 4,
            StepFault::Rat { .. } => 5,
            StepFault::NoEmpty => 6,
            StepFault::Memory => 0,
        }
    }
}

impl From<Memory> for StepFault {
    ghost from_gives = { λ _ e. e ≡ fault.Memory };

    fn from(_fault: Memory) -> StepFault {
        StepFault::Memory
    }
}

impl From<AllocError> for StepFault {
    ghost from_gives = { λ _ e. e ≡ fault.Memory };

    fn from(_fault: AllocError) -> StepFault {
        StepFault::Memory
    }
}

impl<T: Drop> From<AllocFailed<T>> for StepFault {
    ghost from_gives = { λ _ e. e ≡ fault.Memory };

    fn from(_fault: AllocFailed<T>) -> StepFault {
        StepFault::Memory
    }
}
