ghost use Rattle.std.specs.Prelude.{◌≡◌};

use fv_text::{Memory, Pos, Text};
use thiserror::Error;

/// Why tokens can't be preprocessed. The place is that of the faulty token, in a macro's text that of the outermost
/// use. The first fault in the order of the text is answered, and of two at one token the first in this order.
#[derive(Debug, Drop, Error)]
pub enum PrepFault {
    /// The use of a macro that isn't defined there.
    #[error("the macro {0:?} isn't defined, at {1:?}")]
    UnknownMacro(Text, Pos),
    /// A conditional without its partner in the same text, or one behind `else.
    #[error("a conditional without its partner at {0:?}")]
    UnbalancedIf(Pos),
    /// A bracket directly behind the name that is defined.
    #[error("a macro with arguments at {0:?}")]
    MacroArgs(Pos),
    /// A macro's use within 32 others.
    #[error("macros too deep at {0:?}")]
    MacroDepth(Pos),
    #[error("a text to be included at {0:?}")]
    Include(Pos),
    /// At token 2,000,001 of what is put out.
    #[error("too many tokens at {0:?}")]
    TooManyTokens(Pos),
    /// No name stands behind the directive on its line.
    #[error("a directive without its name at {0:?}")]
    NoName(Pos),
    #[error("no memory is left")]
    Memory,
}

impl From<Memory> for PrepFault {
    ghost use Rattle.vl_prep.specs.declared.fault.PrepFault.TheVariants as fault;

    ghost from_gives = { λ _ e. e ≡ fault.Memory };

    fn from(_fault: Memory) -> PrepFault {
        PrepFault::Memory
    }
}
