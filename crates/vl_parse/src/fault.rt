use fv_text::{Memory, Pos, Text};
use thiserror::Error;

/// Why tokens have no tree. The faulty token is the first one that no source has behind the tokens before it; the end
/// of the tokens counts as one, at the place of the last, or at 1:1 of file 1 where there is none.
#[derive(Debug, Drop, Error)]
pub enum ParseFault {
    /// At the faulty token, one that the subset speaks of.
    #[error("a token out of place at {0:?}")]
    Syntax(Pos),
    /// At the first token at which 257 constructs are open, if another one is behind it; else the end is out of place.
    #[error("constructs too deep at {0:?}")]
    TooDeep(Pos),
    /// At the faulty token, one outside of the subset, as it is written; `string` stands for a string and `number`
    /// for a number.
    #[error("a token outside of the subset at {0:?}: {1:?}")]
    Outside(Pos, Text),
    #[error("no memory is left")]
    Memory,
}

impl From<Memory> for ParseFault {
    ghost use Rattle.std.specs.Prelude.{◌≡◌};
    ghost use Rattle.vl_parse.specs.declared.fault.ParseFault.TheVariants as fault;

    ghost from_gives = { λ _ e. e ≡ fault.Memory };

    fn from(_fault: Memory) -> ParseFault {
        ParseFault::Memory
    }
}
