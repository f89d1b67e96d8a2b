//! The line that declares a name.

ghost use Rattle.std.specs.Prelude.{◌≡◌, ◌↔◌, option_map, IsTrue, MatchOption};
ghost use Rattle.std.specs.List.{list_all};
ghost use Rattle.vcd_dump.specs.Digits.{code};
ghost use Rattle.vcd_text.specs.Reading.{FindsName, IsWidth, IsNoWidth, is_plain};

use crate::words::{index_up_to, number_up_to};
use fv_lines::{before, behind, cut_at};

/// The width and the text of the name that the line declares, if its code is that of this index.
pub(crate) fn name_at(line: &[u8], index: usize) -> Option<(u32, &[u8])>
    ensures { FindsName index line.now (option_map (λ x. (x.0, x.1.now)) result) }
{
    let Some(rest) = behind(line, b"$var wire ") else {
        return None;
    };
    let Some((digits, rest)) = cut_at(rest, b' ') else {
        return None;
    };
    let Some((characters, rest)) = cut_at(rest, b' ') else {
        return None;
    };
    let Some(text) = before(rest, b" $end") else {
        return None;
    };
    if !is_code(characters, index) {
        return None;
    }
    if !are_plain(text) {
        return None;
    }
    let Some(width) = width_of(digits) else {
        return None;
    };
    Some((width, text))
}

/// The width from 1 to 128 that these digits write.
fn width_of(digits: &[u8]) -> Option<u32>
    ensures { MatchOption result (IsNoWidth digits.now) (IsWidth digits.now) }
{
    let Some(width) = number_up_to(digits, 10, 128) else {
        return None;
    };
    if width == 0 {
        return None;
    }
    Some(width as u32)
}

/// Whether these characters are the code of this index.
fn is_code(characters: &[u8], index: usize) -> bool
    ensures { IsTrue result ↔ (characters.now ≡ code index) }
{
    match index_up_to(characters, index as u128) {
        Some(found) => found == index as u128,
        None => false,
    }
}

/// Whether these bytes have neither blanks nor control bytes.
fn are_plain(text: &[u8]) -> bool
    ensures { result ≡ list_all is_plain text.now }
{
    text.iter().all(|byte| 32 < *byte && *byte != 127)
}
