ghost use Rattle.std.specs.Prelude.{◌≡◌};
ghost use Rattle.rvfi_port.specs.declared.fault.PortFault.TheVariants as fault;

use crate::field::Field;
use fv_text::Memory;
use std::alloc::AllocFailed;
use thiserror::Error;

/// Why a design has no port.
#[derive(Debug, Clone, Copy, PartialEq, Eq, Error)]
pub enum PortFault {
    /// The top has no output of this name.
    #[error("no output {0:?}")]
    Missing(Field),
    /// The output has another width, in bits, than the one that is wanted.
    #[error("output {0:?} has {1} bits in place of {2}")]
    Width(Field, u32, u64),
    /// Data memory is probed by whole aligned words alone.
    #[error("data memory isn't aligned")]
    NeedsAligned,
    #[error("no memory is left")]
    Memory,
}

impl From<Memory> for PortFault {
    ghost from_gives = { λ _ e. e ≡ fault.Memory };

    fn from(_fault: Memory) -> PortFault {
        PortFault::Memory
    }
}

impl<T: Drop> From<AllocFailed<T>> for PortFault {
    ghost from_gives = { λ _ e. e ≡ fault.Memory };

    fn from(_fault: AllocFailed<T>) -> PortFault {
        PortFault::Memory
    }
}
