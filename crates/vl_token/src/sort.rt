ghost use Rattle.std.specs.Prelude.{◌≡◌};
ghost use Rattle.vl_token.specs.Cut as cut;

use crate::class::{begins_word, is_blank, is_decimal_digit};

/// Which piece a byte may begin.
#[derive(Debug, Clone, Copy, PartialEq, Eq)]
pub(crate) enum Sort {
    Word,
    Digit,
    Blank,
    Slash,
    Apostrophe,
    Dollar,
    Backquote,
    Quote,
    Backslash,
    Other,
}

pub(crate) fn sort_of(byte: u8) -> Sort
    ensures { result ≡ cut.sort_of byte }
{
    if begins_word(byte) {
        Sort::Word
    } else if is_decimal_digit(byte) {
        Sort::Digit
    } else if is_blank(byte) {
        Sort::Blank
    } else {
        sort_of_mark(byte)
    }
}

fn sort_of_mark(byte: u8) -> Sort
    ensures { result ≡ cut.sort_of_mark byte }
{
    match byte {
        b'/' => Sort::Slash,
        b'\'' => Sort::Apostrophe,
        b'$' => Sort::Dollar,
        b'`' => Sort::Backquote,
        b'"' => Sort::Quote,
        b'\\' => Sort::Backslash,
        _ => Sort::Other,
    }
}
