ghost use Rattle.std.specs.Prelude.{◌≡◌};

use fv_text::{Memory, Pos};
use thiserror::Error;

/// Why an expression isn't a constant. The earliest fault in it is answered, and of two at one place the first in this
/// order.
#[derive(Debug, Clone, Copy, PartialEq, Eq, Error)]
pub enum ConstFault {
    /// A name that isn't that of a constant.
    #[error("a name without a constant at {0:?}")]
    NotConstant(Pos),
    /// At the first token of a division.
    #[error("a division by 0 at {0:?}")]
    ZeroDivisor(Pos),
    /// An expression of more than 128 bits, with its size in bits, or with `2^64 - 1` where it passes that.
    #[error("{1} bits at {0:?}")]
    TooWide(Pos, u64),
    /// A select behind another one, against the direction, past 32 signed bits or of a width below 1, at its bracket; a
    /// replication whose count is below 1; or one of nothing, or a concatenation of nothing, which no text spells.
    #[error("past its range at {0:?}")]
    Range(Pos),
    #[error("no memory is left")]
    Memory,
}

impl From<Memory> for ConstFault {
    ghost use Rattle.vl_mean.specs.declared.const_fault.ConstFault.TheVariants as fault;

    ghost from_gives = { λ _ e. e ≡ fault.Memory };

    fn from(_fault: Memory) -> ConstFault {
        ConstFault::Memory
    }
}
