ghost use Rattle.std.specs.Prelude.{◌≡◌};
ghost use Rattle.fv_text.specs.Name as name;
ghost use Rattle.vl_token.specs.Bytes as blanks;
ghost use Rattle.vl_token.specs.Numeral as numeral;
ghost use Rattle.std.specs.List.{prefix_len};
ghost use Rattle.vl_token.specs.Bytes.{run, behind};
ghost use Rattle.vl_token.specs.Classes.{has};

/// The bytes that a run may consist of.
#[derive(Debug, Clone, Copy, PartialEq, Eq)]
pub(crate) enum Class {
    Word,
    Decimal,
    Space,
    Digits,
    DecimalDigits,
    Line,
    Quotable,
}

impl Class {
    fn has(self, byte: u8) -> bool
        ensures { result ≡ has self byte }
    {
        match self {
            Class::Word => continues_word(byte),
            Class::Decimal => continues_decimal(byte),
            Class::Space => is_space(byte),
            Class::Digits => continues_digits(byte),
            Class::DecimalDigits => byte != b'?' && continues_digits(byte),
            Class::Line => byte != b'\n',
            Class::Quotable => byte != b'"' && byte != b'\n',
        }
    }
}

/// The longest front of bytes of the class, and what stands behind it.
#[tactic(auto, using(crate::proofs::Runs::splits))]
pub(crate) fn split_run<'a>(class: Class, bytes: &'a [u8]) -> (&'a [u8], &'a [u8])
    ensures run { result.0.now ≡ run (has class) bytes.entry.now }
    ensures behind { result.1.now ≡ behind (has class) bytes.entry.now }
{
    bytes.split_at(run_length(class, bytes))
}

fn run_length(class: Class, bytes: &[u8]) -> usize
    ensures { result ≡ prefix_len (has class) bytes.now }
{
    bytes.iter().take_while(|byte| class.has(**byte)).count()
}

pub(crate) fn is_letter(byte: u8) -> bool
    ensures { result ≡ name.is_letter byte }
{
    (b'A' <= byte && byte <= b'Z') || (b'a' <= byte && byte <= b'z')
}

pub(crate) fn is_decimal_digit(byte: u8) -> bool
    ensures { result ≡ name.is_decimal_digit byte }
{
    b'0' <= byte && byte <= b'9'
}

pub(crate) fn begins_word(byte: u8) -> bool
    ensures { result ≡ name.begins_word byte }
{
    is_letter(byte) || byte == b'_'
}

fn continues_word(byte: u8) -> bool
    ensures { result ≡ name.continues_word byte }
{
    begins_word(byte) || is_decimal_digit(byte) || byte == b'$'
}

fn is_space(byte: u8) -> bool
    ensures { result ≡ blanks.is_space byte }
{
    byte == b' ' || byte == b'\t'
}

pub(crate) fn is_blank(byte: u8) -> bool
    ensures { result ≡ blanks.is_blank byte }
{
    byte == b' ' || byte == b'\t' || byte == b'\r' || byte == b'\n' || byte == 12
}

fn continues_decimal(byte: u8) -> bool
    ensures { result ≡ numeral.continues_decimal byte }
{
    is_decimal_digit(byte) || byte == b'_'
}

/// A capital as the small letter.
pub(crate) fn small(byte: u8) -> u8
    ensures { result ≡ blanks.small byte }
{
    if b'A' <= byte && byte <= b'Z' {
        byte + 32
    } else {
        byte
    }
}

pub(crate) fn is_unknown(byte: u8) -> bool
    ensures { result ≡ numeral.is_unknown byte }
{
    small(byte) == b'x'
}

pub(crate) fn is_wild(byte: u8) -> bool
    ensures { result ≡ numeral.is_wild byte }
{
    small(byte) == b'z' || byte == b'?'
}

pub(crate) fn is_mark(byte: u8) -> bool
    ensures { result ≡ numeral.is_mark byte }
{
    is_unknown(byte) || is_wild(byte)
}

pub(crate) fn is_hex_letter(byte: u8) -> bool
    ensures { result ≡ numeral.is_hex_letter byte }
{
    let letter = small(byte);
    b'a' <= letter && letter <= b'f'
}

pub(crate) fn is_digit(byte: u8) -> bool
    ensures { result ≡ numeral.is_digit byte }
{
    is_decimal_digit(byte) || is_hex_letter(byte) || is_mark(byte)
}

fn continues_digits(byte: u8) -> bool
    ensures { result ≡ numeral.continues_digits byte }
{
    is_digit(byte) || byte == b'_'
}

pub(crate) fn is_base(byte: u8) -> bool
    ensures { result ≡ numeral.is_base byte }
{
    let letter = small(byte);
    letter == b'b' || letter == b'o' || letter == b'd' || letter == b'h'
}

pub(crate) fn is_decimal_base(byte: u8) -> bool
    ensures { result ≡ numeral.is_decimal_base byte }
{
    small(byte) == b'd'
}

pub(crate) fn is_sign(byte: u8) -> bool
    ensures { result ≡ numeral.is_sign byte }
{
    small(byte) == b's'
}
