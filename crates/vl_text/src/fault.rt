ghost use Rattle.std.specs.Prelude.{◌≡◌};

use fv_text::Memory;
use thiserror::Error;
use vl_parse::ParseFault;
use vl_prep::PrepFault;
use vl_token::LexFault;

/// Why Verilog texts have no tree: which part refuses them, the first in this order.
#[derive(Debug, Drop, Error)]
pub enum TextFault {
    /// Of the texts that the lexer refuses the one with the earliest place counts, by file, line and column.
    #[error("{0}")]
    Lex(LexFault),
    #[error("{0}")]
    Prep(PrepFault),
    #[error("{0}")]
    Parse(ParseFault),
    #[error("no memory is left")]
    Memory,
}

impl From<Memory> for TextFault {
    ghost use Rattle.vl_text.specs.declared.fault.TextFault.TheVariants as fault;

    ghost from_gives = { λ _ e. e ≡ fault.Memory };

    fn from(_fault: Memory) -> TextFault {
        TextFault::Memory
    }
}
