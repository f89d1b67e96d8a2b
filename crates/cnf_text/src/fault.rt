ghost use Rattle.std.specs.Prelude.{◌≡◌};
ghost use Rattle.cnf_text.specs.Dimacs.{dimacs_number};
ghost use Rattle.cnf_text.specs.declared.fault.DimacsFault.TheVariants as fault;

use fv_text::Memory;
use std::alloc::{AllocError, AllocFailed};
use thiserror::Error;

/// Why a text is no clause file. Lines count from 1.
#[derive(Debug, Clone, Copy, PartialEq, Eq, Error)]
pub enum DimacsFault {
    /// There is no header before the first clause, or it has another form, or it names more than 100,000,000 variables
    /// or clauses. Where the text ends without one, the line is the one behind the last.
    #[error("line {line}: no header")]
    Header { line: u32 },
    /// A word is no number, or names no variable.
    #[error("line {line}: no literal")]
    Literal { line: u32 },
    /// The number of clauses isn't the header's.
    #[error("{found} clauses where the header says {said}")]
    Count { found: u64, said: u64 },
    /// The text ends inside a clause, whose last literal is in this line.
    #[error("line {line}: the clause has no end")]
    Open { line: u32 },
    #[error("no memory is left")]
    Memory,
}

impl DimacsFault {
    /// The number in print.
    pub fn number(self) -> u8
        ensures { result ≡ dimacs_number self }
    {
        match self {
            DimacsFault::Header { .. } => 1,
            DimacsFault::Literal { .. } => 2,
            DimacsFault::Count { .. } => 3,
            DimacsFault::Open { .. } => 4,
            DimacsFault::Memory => 0,
        }
    }
}

impl From<Memory> for DimacsFault {
    ghost from_gives = { λ _ e. e ≡ fault.Memory };

    fn from(_fault: Memory) -> DimacsFault {
        DimacsFault::Memory
    }
}

impl From<AllocError> for DimacsFault {
    ghost from_gives = { λ _ e. e ≡ fault.Memory };

    fn from(_fault: AllocError) -> DimacsFault {
        DimacsFault::Memory
    }
}

impl<T: Drop> From<AllocFailed<T>> for DimacsFault {
    ghost from_gives = { λ _ e. e ≡ fault.Memory };

    fn from(_fault: AllocFailed<T>) -> DimacsFault {
        DimacsFault::Memory
    }
}
