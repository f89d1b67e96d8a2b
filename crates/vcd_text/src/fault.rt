ghost use Rattle.std.specs.Prelude.{◌≡◌};
ghost use Rattle.vcd_text.specs.declared.fault.VcdFault.TheVariants as fault;

use fv_text::Memory;
use std::alloc::{AllocError, AllocFailed};
use thiserror::Error;

/// Why bytes are no dump of a trace.
#[derive(Debug, Clone, Copy, PartialEq, Eq, Error)]
pub enum VcdFault {
    /// The first line, from 1, that no dump has behind the lines before it. The count stands still at 2^32 - 1.
    #[error("line {0}: no line of a dump")]
    Line(u32),
    #[error("no memory is left")]
    Memory,
}

impl From<Memory> for VcdFault {
    ghost from_gives = { λ _ e. e ≡ fault.Memory };

    fn from(_fault: Memory) -> VcdFault {
        VcdFault::Memory
    }
}

impl From<AllocError> for VcdFault {
    ghost from_gives = { λ _ e. e ≡ fault.Memory };

    fn from(_fault: AllocError) -> VcdFault {
        VcdFault::Memory
    }
}

impl<T: Drop> From<AllocFailed<T>> for VcdFault {
    ghost from_gives = { λ _ e. e ≡ fault.Memory };

    fn from(_fault: AllocFailed<T>) -> VcdFault {
        VcdFault::Memory
    }
}
