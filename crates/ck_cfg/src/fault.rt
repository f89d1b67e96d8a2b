ghost use Rattle.std.specs.Prelude.{◌≡◌};
ghost use Rattle.ck_cfg.specs.Faults.{number_of};
ghost use Rattle.ck_cfg.specs.declared.fault.CfgFault.TheVariants as fault;

use fv_text::{Memory, Text};
use std::alloc::{AllocError, AllocFailed};
use thiserror::Error;

/// Why bytes are no configuration. Lines count from 1, and the count stands still at 2^32 - 1. `NotUtf8` comes first,
/// then the first faulty line, at one line the first in this order, then `Missing`.
#[derive(Debug, Drop, Error)]
pub enum CfgFault {
    /// No section has this name. The name is empty where text stands before the first section.
    #[error("line {line}: no section {name:?}")]
    Section { line: u32, name: Text },
    /// No option has this key, or `isa` or `nret` stands without one value.
    #[error("line {line}: no option {key:?}")]
    Option { line: u32, key: Text },
    /// The kind, the channel, the number of words, a number or a condition on the cycles is wrong.
    #[error("line {line}: no depth")]
    Depth { line: u32 },
    #[error("line {line}: no instruction set {text:?}")]
    Isa { line: u32, text: Text },
    /// There is no depth line, or no file name, where the section is `verilog-files`.
    #[error("nothing in the section {section:?}")]
    Missing { section: Text },
    /// The section, the option, or the kind and channel stands there for the second time.
    #[error("line {line}: {key:?} for the second time")]
    Twice { line: u32, key: Text },
    /// A number of a depth line is above 100.
    #[error("line {line}: too deep")]
    TooDeep { line: u32 },
    #[error("no text in UTF-8")]
    NotUtf8,
    /// A number of channels that is neither 1 nor 2.
    #[error("line {line}: no number of channels")]
    Nret { line: u32 },
    /// The line doesn't name files to be read.
    #[error("line {line}: no files to be read")]
    Script { line: u32 },
    #[error("no memory is left")]
    Memory,
}

impl CfgFault {
    /// The number in print.
    pub fn number(&self) -> u8
        ensures { result ≡ number_of self.now }
    {
        match self {
            CfgFault::Section { .. } => 1,
            CfgFault::Option { .. } => 2,
            CfgFault::Depth { .. } => 3,
            CfgFault::Isa { .. } => 4,
            CfgFault::Missing { .. } => 5,
            CfgFault::Twice { .. } => 6,
            CfgFault::TooDeep { .. } => 7,
            CfgFault::NotUtf8 => 8,
            CfgFault::Nret { .. } => 9,
            CfgFault::Script { .. } => 10,
            CfgFault::Memory => 0,
        }
    }
}

impl From<Memory> for CfgFault {
    ghost from_gives = { λ _ e. e ≡ fault.Memory };

    fn from(_fault: Memory) -> CfgFault {
        CfgFault::Memory
    }
}

impl From<AllocError> for CfgFault {
    ghost from_gives = { λ _ e. e ≡ fault.Memory };

    fn from(_fault: AllocError) -> CfgFault {
        CfgFault::Memory
    }
}

impl<T: Drop> From<AllocFailed<T>> for CfgFault {
    ghost from_gives = { λ _ e. e ≡ fault.Memory };

    fn from(_fault: AllocFailed<T>) -> CfgFault {
        CfgFault::Memory
    }
}
