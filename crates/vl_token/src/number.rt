ghost use Rattle.std.specs.Prelude.{
  ◌≡◌,
  ◌+◌,
  ◌-◌,
  ◌*◌,
  ◌%◌,
  ◌^◌,
  ◌==◌,
  ◌<◌,
  ◌≤◌,
  Bool,
  true,
  false,
  min,
  not,
  cond,
};
ghost use Rattle.std.specs.Prelude.{length, find, fold, MatchOption};
ghost use Rattle.std.specs.List.{list_all, list_any};
ghost use Rattle.vl_token.specs.Number as means;
ghost use Rattle.vl_token.specs.Number.{Means, digits_of, number_by, is_bad, is_misfit, is_mixed, MeansPlain};
ghost use Rattle.vl_token.specs.Number.{MeansBased};
ghost use Rattle.vl_token.specs.Bytes.{first_is};
ghost use Rattle.vl_token.specs.Numeral.{is_mark, plain, based};
ghost use Rattle.vl_token.specs.Marks.{test_of, all_bits, mark_worth};
ghost use Rattle.vl_token.specs.Views.{view_numeral, view_format};

use crate::class::{
    is_decimal_base, is_decimal_digit, is_hex_letter, is_mark, is_unknown, is_wild, small,
};
use crate::format::{Format, Numeral};
use fv_text::Number;

/// What a written number means. None exactly where it is written against the rules.
pub(crate) fn number_of(numeral: &Numeral) -> Option<Number>
    ensures { MatchOption result (is_bad (view_numeral numeral.now) ≡ true)
        (λ n. Means (view_numeral numeral.now) n) }
{
    match numeral {
        Numeral::Plain(digits) => plain_number(digits),
        Numeral::Based(format) => based_number(format),
    }
}

/// A value of 33 bits or more counts as one of these.
const TOO_LARGE: u64 = 0x1_0000_0000;

fn plain_number(digits: &[u8]) -> Option<Number>
    ensures { MatchOption result (is_bad (plain digits.now) ≡ true) (λ n. Means (plain digits.now) n) }
{
    let value = short_value(10, digits);
    if value >= TOO_LARGE {
        return None;
    }
    Some(Number {
        sized: false,
        signed: true,
        width: 32,
        value: u128::from(value),
        wild: 0,
        unknown: 0,
    })
}

fn based_number(format: &Format) -> Option<Number>
    ensures { MatchOption result (is_bad (based (view_format format.now)) ≡ true)
        (λ n. Means (based (view_format format.now)) n) }
{
    if is_misspelt(format) {
        return None;
    }
    let width = width_of(format)?;
    let radix = radix(format.base);
    let marks = mark_radix(format.base);
    Some(Number {
        sized: !format.size.is_empty(),
        signed: !format.sign.is_empty(),
        width,
        value: cut_to(width, long_value(radix, format.digits)),
        wild: cut_to(width, mark_bits(Mark::Wild, marks, format.digits)),
        unknown: cut_to(width, mark_bits(Mark::Unknown, marks, format.digits)),
    })
}

/// Whether the digits are against the rules.
fn is_misspelt(format: &Format) -> bool
    ensures { result ≡ means.is_misspelt (view_format format.now) }
{
    format.digits.is_empty()
        || !are_digits_in(radix(format.base), format.digits)
        || is_mixed(format.base, format.digits)
}

/// None exactly where the size is out of range, or without size the value is.
fn width_of(format: &Format) -> Option<u32>
    ensures fits { MatchOption result (is_misfit (view_format format.now) format.now.size.now ≡ true)
        (λ w. (is_misfit (view_format format.now) format.now.size.now ≡ false)
        × (w ≡ means.width_of format.now.size.now)) }
    ensures range { MatchOption result (true ≡ true) (λ w. (1 ≤ w) × (w ≤ 128)) }
{
    if format.size.is_empty() {
        let value = short_value(radix(format.base), format.digits);
        return if value >= TOO_LARGE { None } else { Some(32) };
    }
    let width = short_value(10, format.size);
    if width == 0 || width > 128 {
        None
    } else {
        Some(width as u32)
    }
}

fn are_digits_in(radix: u8, digits: &[u8]) -> bool
    ensures { result ≡ list_all (means.is_digit_in radix) (digits_of digits.now) }
{
    digits
        .iter()
        .copied()
        .filter(|byte| *byte != b'_')
        .all(|byte| is_digit_in(radix, byte))
}

fn is_digit_in(radix: u8, byte: u8) -> bool
    ensures { result ≡ means.is_digit_in radix byte }
{
    is_mark(byte) || ((is_decimal_digit(byte) || is_hex_letter(byte)) && worth(byte) < radix)
}

fn is_mixed(base: u8, digits: &[u8]) -> bool
    ensures { result ≡ is_mixed base (digits_of digits.now) }
{
    is_decimal_base(base) && has_mark(digits) && digit_count(digits) > 1
}

fn has_mark(digits: &[u8]) -> bool
    ensures { result ≡ list_any is_mark (digits_of digits.now) }
{
    digits
        .iter()
        .copied()
        .filter(|byte| *byte != b'_')
        .any(|byte| is_mark(byte))
}

fn digit_count(digits: &[u8]) -> usize
    ensures { result ≡ length (digits_of digits.now) }
{
    digits.iter().filter(|byte| **byte != b'_').count()
}

fn radix(base: u8) -> u8
    ensures value { result ≡ means.radix base }
    ensures range { (2 ≤ result) × (result ≤ 16) }
{
    match small(base) {
        b'b' => 2,
        b'o' => 8,
        b'd' => 10,
        _ => 16,
    }
}

fn mark_radix(base: u8) -> u8
    ensures value { result ≡ means.mark_radix base }
    ensures range { (2 ≤ result) × (result ≤ 16) }
{
    if is_decimal_base(base) {
        2
    } else {
        radix(base)
    }
}

/// What a digit counts; `x`, `z` and `?` count nothing.
fn worth(byte: u8) -> u8
    ensures value { result ≡ means.worth byte }
    ensures range { result < 16 }
{
    if is_decimal_digit(byte) {
        byte - b'0'
    } else if is_hex_letter(byte) {
        small(byte) - 87
    } else {
        0
    }
}

/// The number that the digits make, or `TOO_LARGE` where it is larger.
fn short_value(radix: u8, digits: &[u8]) -> u64
    requires { (1 ≤ radix) × (radix ≤ 16) }
    ensures { result ≡ min (number_by means.worth radix (digits_of digits.now)) (2 ^ 32) }
{
    let mut value = 0;
    for byte in digits {
        value = short_step(radix, value, *byte);
    }
    value
}

fn short_step(radix: u8, value: u64, byte: u8) -> u64
    requires small { value ≤ 2 ^ 32 }
    requires base { (1 ≤ radix) × (radix ≤ 16) }
    ensures { result ≡ cond (byte == 95) value (min (value * radix + means.worth byte) (2 ^ 32)) }
{
    if byte == b'_' {
        return value;
    }
    let next = value * u64::from(radix) + u64::from(worth(byte));
    next.min(TOO_LARGE)
}

/// The number that the digits make, modulo `2^128`.
fn long_value(radix: u8, digits: &[u8]) -> u128
    ensures { result ≡ number_by means.worth radix (digits_of digits.now) % 2 ^ 128 }
{
    let mut value = 0u128;
    for byte in digits {
        value = long_step(radix, value, *byte, worth(*byte));
    }
    value
}

fn long_step(radix: u8, value: u128, byte: u8, count: u8) -> u128
    ensures { result ≡ cond (byte == 95) value ((value * radix + count) % 2 ^ 128) }
{
    if byte == b'_' {
        return value;
    }
    value
        .wrapping_mul(u128::from(radix))
        .wrapping_add(u128::from(count))
}

/// Which digits a number's bits are asked of.
#[derive(Debug, Clone, Copy, PartialEq, Eq)]
pub(crate) enum Mark {
    Wild,
    Unknown,
}

impl Mark {
    fn is(self, byte: u8) -> bool
        ensures { result ≡ test_of self byte }
    {
        match self {
            Mark::Wild => is_wild(byte),
            Mark::Unknown => is_unknown(byte),
        }
    }

    /// The bits that stand before a number with this first digit.
    fn endless(self, first: u8) -> u128
        ensures { result ≡ cond (test_of self first) (2 ^ 128 - 1) 0 }
    {
        if self.is(first) { u128::MAX } else { 0 }
    }

    /// A digit with the mark stands for all bits of its place.
    fn worth(self, radix: u8, byte: u8) -> u8
        requires { 1 ≤ radix }
        ensures { result ≡ mark_worth (test_of self) radix byte }
    {
        if self.is(byte) { radix - 1 } else { 0 }
    }
}

/// The bits of the digits with this mark, modulo `2^128`, as if the first digit stood without end before the others
/// where it has the mark.
fn mark_bits(mark: Mark, radix: u8, digits: &[u8]) -> u128
    requires { 1 ≤ radix }
    ensures { result ≡ fold (λ n b. n * radix + mark_worth (test_of mark) radix b)
        (all_bits (test_of mark) (digits_of digits.now)) (digits_of digits.now) % 2 ^ 128 }
{
    let mut bits = first_bits(mark, digits);
    for byte in digits {
        bits = long_step(radix, bits, *byte, mark.worth(radix, *byte));
    }
    bits
}

#[tactic(auto, using(crate::proofs::Marks::first_digits))]
fn first_bits(mark: Mark, digits: &[u8]) -> u128
    ensures { result ≡ all_bits (test_of mark) (digits_of digits.now) }
{
    match first_digit(digits) {
        Some(first) => mark.endless(first),
        None => 0,
    }
}

fn first_digit(digits: &[u8]) -> Option<u8>
    ensures { result ≡ find (λ b. not (b == 95)) digits.now }
{
    digits.iter().copied().find(|byte| *byte != b'_')
}

/// The low bits of a value.
fn cut_to(width: u32, value: u128) -> u128
    requires { width ≤ 128 }
    ensures value { result ≡ value % 2 ^ width }
    ensures range { result < 2 ^ width }
{
    if width == 128 {
        value
    } else {
        value % (1u128 << width)
    }
}
