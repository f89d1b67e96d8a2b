//! How many instructions may retire in one cycle: what the line of `nret` states, wherever it stands.

ghost use Rattle.std.specs.Prelude.{◌≡◌};
ghost use Rattle.fv_lines.specs.Words.{words};
ghost use Rattle.ck_cfg.specs.Channels.{nret_said, nret_in, nret_at, stays_inside, stated_nret};
ghost use Rattle.ck_cfg.specs.Line.{section_begun, counted_lines};
ghost use Rattle.ck_cfg.specs.Options.{nret_named};

use crate::line::{section_begun, trimmed};
use crate::option::lone_word;
use fv_lines::{next_line, next_word};

/// The number of channels that a text states, also behind lines that are refused; 1 where it states none.
pub(crate) fn stated_nret(bytes: &[u8]) -> u32
    ensures { result ≡ stated_nret (counted_lines bytes.now) }
{
    let mut rest = bytes;
    let mut inside = false;
    while !rest.is_empty() {
        let (text, behind) = next_line(rest);
        let text = trimmed(text);
        if let Some(channels) = nret_at(inside, text) {
            return channels;
        }
        inside = stays_inside(inside, text);
        rest = behind;
    }
    1
}

/// What a line states that stands in `[options]`, or doesn't.
fn nret_at(inside: bool, text: &[u8]) -> Option<u32>
    ensures { result ≡ nret_at inside text.now }
{
    if inside { nret_in(text) } else { None }
}

/// What a line of `[options]` states; None where its key is another one.
fn nret_in(text: &[u8]) -> Option<u32>
    ensures { result ≡ nret_in (words text.now) }
{
    let (key, values) = next_word(text)?;
    if key == b"nret".as_slice() {
        Some(nret_said(values))
    } else {
        None
    }
}

/// What the values of `nret` state; 1 where they are refused.
fn nret_said(values: &[u8]) -> u32
    ensures { result ≡ nret_said (words values.now) }
{
    match lone_word(values) {
        Some(value) => nret_named(value).unwrap_or(1),
        None => 1,
    }
}

/// The number of channels of a value. None exactly where it is neither 1 nor 2.
pub(crate) fn nret_named(value: &[u8]) -> Option<u32>
    ensures { result ≡ nret_named value.now }
{
    match value {
        b"1" => Some(1),
        b"2" => Some(2),
        _ => None,
    }
}

/// Whether the lines behind this one stand in `[options]`.
fn stays_inside(inside: bool, text: &[u8]) -> bool
    ensures { result ≡ stays_inside inside (section_begun text.now) }
{
    match section_begun(text) {
        Some(name) => name == b"options".as_slice(),
        None => inside,
    }
}
