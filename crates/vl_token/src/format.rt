ghost use Rattle.std.specs.Prelude.{◌≡◌, length, option_map};
ghost use Rattle.vl_token.specs.Classes.{has};
ghost use Rattle.vl_token.specs.Cut.{format_at, sign_front, sign_rest, digits_front, digits_rest};
ghost use Rattle.vl_token.specs.Numeral.{goes_on};
ghost use Rattle.vl_token.specs.Views.{view_format};

use crate::class::{Class, is_base, is_decimal_base, is_digit, is_sign, split_run};

/// The parts of a based number: an optional size, blanks, `'`, an optional `s`, a base, blanks and digits.
#[derive(Debug, Clone, Copy)]
pub(crate) struct Format<'a> {
    pub size: &'a [u8],
    pub before: &'a [u8],
    pub sign: &'a [u8],
    pub base: u8,
    pub behind: &'a [u8],
    pub digits: &'a [u8],
}

/// How a number is written.
#[derive(Debug, Clone, Copy)]
pub(crate) enum Numeral<'a> {
    Plain(&'a [u8]),
    Based(Format<'a>),
}

/// The based number of this size that goes on here, and what stands behind it.
#[tactic(auto, unfolding(crate::specs::Cut::format_at))]
pub(crate) fn format_at<'a>(size: &'a [u8], bytes: &'a [u8]) -> Option<(Format<'a>, &'a [u8])>
    ensures { option_map (λ x. (view_format x.0, x.1.now)) result ≡ format_at size.entry.now bytes.entry.now }
{
    let (before, mark) = split_run(Class::Space, bytes);
    let (first, behind_mark) = mark.split_first()?;
    if *first != b'\'' {
        return None;
    }
    let (sign, behind_sign) = split_sign(behind_mark);
    let (base, behind_base) = behind_sign.split_first()?;
    if !is_base(*base) {
        return None;
    }
    let (behind, digits_on) = split_run(Class::Space, behind_base);
    let (digits, rest) = split_digits(*base, digits_on);
    let format = Format {
        size,
        before,
        sign,
        base: *base,
        behind,
        digits,
    };
    Some((format, rest))
}

fn split_sign(bytes: &[u8]) -> (&[u8], &[u8])
    ensures front { result.0.now ≡ sign_front bytes.entry.now }
    ensures rest { result.1.now ≡ sign_rest bytes.entry.now }
{
    match bytes.first() {
        Some(first) if is_sign(*first) => bytes.split_at(1),
        _ => bytes.split_at(0),
    }
}

#[tactic(auto, using(crate::proofs::Runs::digit_splits))]
fn split_digits(base: u8, bytes: &[u8]) -> (&[u8], &[u8])
    ensures front { result.0.now ≡ digits_front base bytes.entry.now }
    ensures rest { result.1.now ≡ digits_rest base bytes.entry.now }
{
    bytes.split_at(digits_length(base, bytes))
}

fn digits_length(base: u8, bytes: &[u8]) -> usize
    ensures { result ≡ length (digits_front base bytes.now) }
{
    let Some((first, others)) = bytes.split_first() else {
        return 0;
    };
    if !is_digit(*first) {
        return 0;
    }
    let (digits, _rest) = split_run(class_of(base), others);
    1 + digits.len()
}

fn class_of(base: u8) -> Class
    ensures { has result ≡ goes_on base }
{
    if is_decimal_base(base) {
        Class::DecimalDigits
    } else {
        Class::Digits
    }
}
