ghost use Rattle.std.specs.Prelude.{◌≡◌};
ghost use Rattle.aiger_text.specs.Faults.{aag_number};
ghost use Rattle.aiger_text.specs.declared.fault.AagFault.TheVariants as fault;

use fv_text::Memory;
use std::alloc::{AllocError, AllocFailed};
use thiserror::Error;

/// Why a text is no graph in the format. Lines count from 1.
#[derive(Debug, Clone, Copy, PartialEq, Eq, Error)]
pub enum AagFault {
    /// The first line isn't `aag M I L O A` with at most four numbers behind it, or a number has more than twenty
    /// digits, or M is below I + L + A.
    #[error("line {line}: no header")]
    Header { line: u32 },
    /// There are latches, or other outputs than one, or more than these.
    #[error("line {line}: not one output without latches")]
    Kind { line: u32 },
    /// The line isn't of its form, or a literal is above 2 M + 1, or one that is defined is odd or 0.
    #[error("line {line}: no literal")]
    Literal { line: u32 },
    /// The line defines a variable that a line before it defines.
    #[error("line {line}: defined again")]
    Twice { line: u32 },
    /// The text ends before the last gate; the line is the one behind the last.
    #[error("line {line}: the text has no more lines")]
    Open { line: u32 },
    /// The line uses a variable other than 0 that no line defines.
    #[error("line {line}: not defined")]
    Undefined { line: u32 },
    /// The gate of the line depends on itself.
    #[error("line {line}: the gate depends on itself")]
    Loop { line: u32 },
    #[error("no memory is left")]
    Memory,
}

impl AagFault {
    /// The number in print.
    pub fn number(self) -> u8
        ensures { result ≡ aag_number self }
    {
        match self {
            AagFault::Header { .. } => 1,
            AagFault::Kind { .. } => 2,
            AagFault::Literal { .. } => 3,
            AagFault::Twice { .. } => 4,
            AagFault::Open { .. } => 5,
            AagFault::Undefined { .. } => 6,
            AagFault::Loop { .. } => 7,
            AagFault::Memory => 0,
        }
    }
}

impl From<Memory> for AagFault {
    ghost from_gives = { λ _ e. e ≡ fault.Memory };

    fn from(_fault: Memory) -> AagFault {
        AagFault::Memory
    }
}

impl From<AllocError> for AagFault {
    ghost from_gives = { λ _ e. e ≡ fault.Memory };

    fn from(_fault: AllocError) -> AagFault {
        AagFault::Memory
    }
}

impl<T: Drop> From<AllocFailed<T>> for AagFault {
    ghost from_gives = { λ _ e. e ≡ fault.Memory };

    fn from(_fault: AllocFailed<T>) -> AagFault {
        AagFault::Memory
    }
}
