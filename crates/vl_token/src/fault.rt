use fv_text::Pos;
use thiserror::Error;

/// Why a text has no tokens. The places are those of the faulty byte, or of the first byte of what is faulty. Of
/// several faults the one with the earliest place is answered, and at one place the first one in this order.
#[derive(Debug, Clone, Copy, PartialEq, Eq, Error)]
pub enum LexFault {
    #[error("a byte above 127 at {0:?}")]
    NotAscii(Pos),
    #[error("a wrong number at {0:?}")]
    BadNumber(Pos),
    #[error("a comment without end at {0:?}")]
    OpenComment(Pos),
    #[error("a byte that begins no token at {0:?}")]
    BadChar(Pos),
    /// At token 2,000,001.
    #[error("too many tokens at {0:?}")]
    TooManyTokens(Pos),
    #[error("a string without end at {0:?}")]
    OpenString(Pos),
    #[error("no memory is left")]
    Memory,
}

impl LexFault {
    ghost use Rattle.std.specs.Prelude.{◌≡◌};
    ghost use Rattle.vl_token.specs.Fault.{number_of};
    ghost use Rattle.vl_token.specs.FaultPlace.{fault_place};

    /// The number of the refusal, from 1 on in the order of the variants.
    pub fn number(self) -> u8
        ensures { result ≡ number_of self }
    {
        match self {
            LexFault::NotAscii(_) => 1,
            LexFault::BadNumber(_) => 2,
            LexFault::OpenComment(_) => 3,
            LexFault::BadChar(_) => 4,
            LexFault::TooManyTokens(_) => 5,
            LexFault::OpenString(_) => 6,
            LexFault::Memory => 7,
        }
    }

    /// None exactly for want of memory.
    pub fn place(self) -> Option<Pos>
        ensures { result ≡ fault_place self }
    {
        match self {
            LexFault::NotAscii(at)
            | LexFault::BadNumber(at)
            | LexFault::OpenComment(at)
            | LexFault::BadChar(at)
            | LexFault::TooManyTokens(at)
            | LexFault::OpenString(at) => Some(at),
            LexFault::Memory => None,
        }
    }
}
