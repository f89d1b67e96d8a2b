ghost use Rattle.std.specs.Prelude.{◌≡◌, ◌==◌, ◌&&◌, [], ◌∷◌, option_map};
ghost use Rattle.fv_text.specs.Name.{continues_word};
ghost use Rattle.vl_token.specs.Bytes.{run, behind, first_is, stays_on_line, is_quotable};
ghost use Rattle.vl_token.specs.Cut.{piece, first_cut, decimal_cut, format_at, based_cut, system_cut, tick_cut};
ghost use Rattle.vl_token.specs.Cut.{quoted_cut, continue_cut, sign_cut, sign_at, slash_cut, block_cut, close_of};
ghost use Rattle.vl_token.specs.Numeral.{continues_decimal};
ghost use Rattle.vl_token.specs.Piece.{word, line_comment};
ghost use Rattle.vl_token.specs.Views.{view_cut};

use crate::class::{Class, begins_word, split_run};
use crate::format::{Format, Numeral, format_at};
use crate::sign::sign_at;
use crate::sort::{Sort, sort_of};
use fv_text::Symbol;

/// A blank, a comment or a token.
#[derive(Debug, Clone, Copy)]
pub(crate) enum Piece<'a> {
    Blank(u8),
    LineComment(&'a [u8]),
    BlockComment(&'a [u8]),
    Word(&'a [u8]),
    Number(Numeral<'a>),
    Sign(Symbol),
    System(&'a [u8]),
    Tick(&'a [u8]),
    Quoted(&'a [u8]),
    Continue,
}

/// The first piece of a text with what stands behind it, or why there is none.
#[derive(Debug, Clone, Copy)]
pub(crate) enum Cut<'a> {
    Ended,
    Piece(Piece<'a>, &'a [u8]),
    OpenComment,
    OpenString,
    BadChar,
}

#[tactic(auto, using(crate::proofs::Cuts::cuts), unfolding(crate::specs::Cut::first_cut))]
pub(crate) fn first_cut(bytes: &[u8]) -> Cut<'_>
    ensures { view_cut result ≡ first_cut bytes.entry.now }
{
    let Some((first, others)) = bytes.split_first() else {
        return Cut::Ended;
    };
    match sort_of(*first) {
        Sort::Word => word_cut(bytes),
        Sort::Digit => decimal_cut(bytes),
        Sort::Blank => Cut::Piece(Piece::Blank(*first), others),
        Sort::Slash => slash_cut(bytes, others),
        Sort::Apostrophe => unsized_cut(bytes),
        Sort::Dollar => system_cut(others),
        Sort::Backquote => tick_cut(others),
        Sort::Quote => quoted_cut(others),
        Sort::Backslash => continue_cut(others),
        Sort::Other => sign_cut(bytes),
    }
}

fn word_cut(bytes: &[u8]) -> Cut<'_>
    ensures { view_cut result ≡ piece (word (run continues_word bytes.entry.now))
        (behind continues_word bytes.entry.now) }
{
    let (word, rest) = split_run(Class::Word, bytes);
    Cut::Piece(Piece::Word(word), rest)
}

fn decimal_cut(bytes: &[u8]) -> Cut<'_>
    ensures { view_cut result ≡ decimal_cut (run continues_decimal bytes.entry.now)
        (behind continues_decimal bytes.entry.now)
        (format_at (run continues_decimal bytes.entry.now) (behind continues_decimal bytes.entry.now)) }
{
    let (size, rest) = split_run(Class::Decimal, bytes);
    match format_at(size, rest) {
        Some((format, behind)) => Cut::Piece(Piece::Number(Numeral::Based(format)), behind),
        None => Cut::Piece(Piece::Number(Numeral::Plain(size)), rest),
    }
}

fn unsized_cut(bytes: &[u8]) -> Cut<'_>
    ensures { view_cut result ≡ based_cut (format_at [] bytes.entry.now) }
{
    match format_at(&[], bytes) {
        Some((format, rest)) => Cut::Piece(Piece::Number(Numeral::Based(format)), rest),
        None => Cut::BadChar,
    }
}

fn system_cut(bytes: &[u8]) -> Cut<'_>
    ensures { view_cut result ≡ system_cut (run continues_word bytes.entry.now)
        (behind continues_word bytes.entry.now) }
{
    let (name, rest) = split_run(Class::Word, bytes);
    if name.is_empty() {
        Cut::BadChar
    } else {
        Cut::Piece(Piece::System(name), rest)
    }
}

fn tick_cut(bytes: &[u8]) -> Cut<'_>
    ensures { view_cut result ≡ tick_cut bytes.entry.now }
{
    match bytes.first() {
        Some(first) if begins_word(*first) => {
            let (name, rest) = split_run(Class::Word, bytes);
            Cut::Piece(Piece::Tick(name), rest)
        }
        _ => Cut::BadChar,
    }
}

fn quoted_cut(bytes: &[u8]) -> Cut<'_>
    ensures { view_cut result ≡ quoted_cut (run is_quotable bytes.entry.now) (behind is_quotable bytes.entry.now) }
{
    let (body, close) = split_run(Class::Quotable, bytes);
    match close.split_first() {
        Some((b'"', rest)) => Cut::Piece(Piece::Quoted(body), rest),
        _ => Cut::OpenString,
    }
}

fn continue_cut(bytes: &[u8]) -> Cut<'_>
    ensures { view_cut result ≡ continue_cut bytes.entry.now }
{
    match bytes.first() {
        Some(b'\n') => Cut::Piece(Piece::Continue, bytes),
        _ => Cut::BadChar,
    }
}

#[tactic(auto, using(crate::proofs::Signs::sign_fits))]
fn sign_cut(bytes: &[u8]) -> Cut<'_>
    ensures { view_cut result ≡ sign_cut bytes.entry.now (sign_at bytes.entry.now) }
{
    match sign_at(bytes) {
        Some(sign) => Cut::Piece(Piece::Sign(sign), &bytes[sign.text().len()..]),
        None => Cut::BadChar,
    }
}

/// Behind a `/`, which the bytes begin with.
fn slash_cut<'a>(bytes: &'a [u8], others: &'a [u8]) -> Cut<'a>
    requires { bytes.now ≡ 47 ∷ others.now }
    ensures { view_cut result ≡ slash_cut others.entry.now }
{
    match others.split_first() {
        Some((b'/', inside)) => line_cut(inside),
        Some((b'*', inside)) => block_cut(inside),
        _ => sign_cut(bytes),
    }
}

fn line_cut(bytes: &[u8]) -> Cut<'_>
    ensures { view_cut result ≡ piece (line_comment (run stays_on_line bytes.entry.now))
        (behind stays_on_line bytes.entry.now) }
{
    let (body, rest) = split_run(Class::Line, bytes);
    Cut::Piece(Piece::LineComment(body), rest)
}

fn block_cut(bytes: &[u8]) -> Cut<'_>
    ensures { view_cut result ≡ block_cut (close_of bytes.entry.now) }
{
    match split_close(bytes) {
        Some((body, rest)) => Cut::Piece(Piece::BlockComment(body), rest),
        None => Cut::OpenComment,
    }
}

/// What stands before the first `*/`, and what behind it.
#[tactic(auto, using(crate::proofs::Closes::closes_on))]
fn split_close(bytes: &[u8]) -> Option<(&[u8], &[u8])>
    ensures { option_map (λ x. (x.0.now, x.1.now)) result ≡ close_of bytes.entry.now }
{
    let mut rest = bytes;
    while let Some((first, others)) = rest.split_first() {
        if is_close(*first, others) {
            return Some((&bytes[..bytes.len() - rest.len()], &others[1..]));
        }
        rest = others;
    }
    None
}

/// Whether the first byte and the one behind it are `*/`.
fn is_close(first: u8, others: &[u8]) -> bool
    ensures { result ≡ (first == 42 && first_is (λ c. c == 47) others.now) }
{
    first == b'*' && others.first() == Some(&b'/')
}
