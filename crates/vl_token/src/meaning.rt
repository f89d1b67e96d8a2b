ghost use Rattle.std.specs.Prelude.{IfOk};
ghost use Rattle.vl_token.specs.Meanings.{IsMeaning};
ghost use Rattle.vl_token.specs.Piece.{word};
ghost use Rattle.vl_token.specs.Tokens.{IsKind};
ghost use Rattle.vl_token.specs.Views.{view_piece};

use crate::number::number_of;
use crate::piece::Piece;
use fv_text::{Keyword, Kind, Memory, Text};
use std::alloc::Global;

/// What a piece is.
#[derive(Debug, Drop)]
pub(crate) enum Meaning {
    Gap,
    Token(Kind),
    BadNumber,
}

pub(crate) fn meaning_of(alloc: Global, piece: &Piece) -> Result<Meaning, Memory>
    ensures { IfOk result (λ meaning. IsMeaning (view_piece piece.now) meaning) }
{
    Ok(match piece {
        Piece::Blank(_) | Piece::LineComment(_) | Piece::BlockComment(_) => Meaning::Gap,
        Piece::Word(word) => Meaning::Token(word_kind(alloc, word)?),
        Piece::Number(numeral) => match number_of(numeral) {
            Some(number) => Meaning::Token(Kind::Number(number)),
            None => Meaning::BadNumber,
        },
        Piece::Sign(sign) => Meaning::Token(Kind::Symbol(*sign)),
        Piece::System(name) => Meaning::Token(Kind::System(Text::from_bytes(alloc, name)?)),
        Piece::Tick(name) => Meaning::Token(Kind::Tick(Text::from_bytes(alloc, name)?)),
        Piece::Quoted(_) => Meaning::Token(Kind::Quoted),
        Piece::Continue => Meaning::Token(Kind::Continue),
    })
}

fn word_kind(alloc: Global, text: &[u8]) -> Result<Kind, Memory>
    ensures { IfOk result (λ kind. IsKind (word text.now) kind) }
{
    match Keyword::of_text(text) {
        Some(keyword) => Ok(Kind::Keyword(keyword)),
        None => Ok(Kind::Name(Text::from_bytes(alloc, text)?)),
    }
}
