ghost use Rattle.std.specs.Prelude.{◌≡◌};
ghost use Rattle.lrat_check.specs.Texts.{lrat_number};
ghost use Rattle.lrat_check.specs.declared.lrat_fault.LratFault.TheVariants as fault;

use fv_text::Memory;
use std::alloc::{AllocError, AllocFailed};
use thiserror::Error;

/// Why a text is no proof. Lines count from 1.
#[derive(Debug, Clone, Copy, PartialEq, Eq, Error)]
pub enum LratFault {
    /// A word isn't what its place demands.
    #[error("line {line}: a word is out of place")]
    Literal { line: u32 },
    /// The line ends without its zeros.
    #[error("line {line}: the step has no end")]
    Open { line: u32 },
    #[error("no memory is left")]
    Memory,
}

impl LratFault {
    /// The number in print.
    pub fn number(self) -> u8
        ensures { result ≡ lrat_number self }
    {
        match self {
            LratFault::Literal { .. } => 1,
            LratFault::Open { .. } => 2,
            LratFault::Memory => 0,
        }
    }
}

impl From<Memory> for LratFault {
    ghost from_gives = { λ _ e. e ≡ fault.Memory };

    fn from(_fault: Memory) -> LratFault {
        LratFault::Memory
    }
}

impl From<AllocError> for LratFault {
    ghost from_gives = { λ _ e. e ≡ fault.Memory };

    fn from(_fault: AllocError) -> LratFault {
        LratFault::Memory
    }
}

impl<T: Drop> From<AllocFailed<T>> for LratFault {
    ghost from_gives = { λ _ e. e ≡ fault.Memory };

    fn from(_fault: AllocFailed<T>) -> LratFault {
        LratFault::Memory
    }
}
