//! Tokens that are outside of the subset where they are the faulty one.

ghost use Rattle.std.specs.Prelude.{◌≡◌, ◌++◌, Bool, true, false, Some, IfOk, codes};
ghost use Rattle.vl_parse.specs.Faults as spec;

use fv_text::{Keyword, Kind, Memory, Symbol, Text};
use std::alloc::Global;
use vl_parse_cursor::{cast_of, is_known};

/// How a token outside of the subset is named: as it is written, but for strings and numbers. None exactly where it
/// isn't outside.
pub(crate) fn outside_word(alloc: Global, kind: &Kind) -> Result<Option<Text>, Memory>
    ensures { IfOk result (λ word. word ≡ spec.outside_word kind.now) }
{
    match kind {
        Kind::Keyword(keyword) => word_unless(alloc, is_inside(*keyword), keyword.text()),
        Kind::Symbol(Symbol::StarStar) => word_unless(alloc, false, Symbol::StarStar.text()),
        Kind::Symbol(Symbol::MinusColon) => word_unless(alloc, false, Symbol::MinusColon.text()),
        Kind::Quoted => word_unless(alloc, false, b"string"),
        Kind::Number(number) => word_unless(alloc, is_known(number), b"number"),
        Kind::System(name) => match cast_of(name) {
            Some(_) => Ok(None),
            None => Ok(Some(system_word(alloc, name)?)),
        },
        _ => Ok(None),
    }
}

fn word_unless(alloc: Global, inside: bool, word: &[u8]) -> Result<Option<Text>, Memory>
    ensures { IfOk result (λ found. found ≡ spec.word_unless inside word.now) }
{
    if inside {
        return Ok(None);
    }
    Ok(Some(Text::from_bytes(alloc, word)?))
}

/// The name behind a `$`.
fn system_word(alloc: Global, name: &Text) -> Result<Text, Memory>
    ensures { IfOk result (λ word. word ≡ codes "$" ++ name.now) }
{
    let mut bytes = Vec::from_slice(alloc, b"$")?;
    bytes.extend_from_slice(name.bytes())?;
    Ok(Text::from_vec(bytes))
}

/// Whether the grammar of the subset speaks of the word.
fn is_inside(keyword: Keyword) -> bool
    ensures { result ≡ spec.is_inside keyword }
{
    match keyword {
        Keyword::Module
        | Keyword::Endmodule
        | Keyword::Input
        | Keyword::Output
        | Keyword::Wire
        | Keyword::Reg
        | Keyword::Integer
        | Keyword::Signed
        | Keyword::Parameter
        | Keyword::Localparam
        | Keyword::Genvar
        | Keyword::Generate
        | Keyword::Endgenerate
        | Keyword::Assign
        | Keyword::Always
        | Keyword::Initial
        | Keyword::Posedge
        | Keyword::Begin
        | Keyword::End
        | Keyword::If
        | Keyword::Else
        | Keyword::Case
        | Keyword::Casez
        | Keyword::Endcase
        | Keyword::Default
        | Keyword::For
        | Keyword::Assume => true,
        _ => false,
    }
}
