#![tactic(auto, using(crate::proofs::NumberLemmas::machine))]

ghost use Rattle.std.specs.Prelude.{◌≡◌, ◌<◌, ◌^◌, ◌≤◌, ◌*ℤ◌, pos, unsigned_abs};
ghost use Rattle.fv_bits.specs.Bits.{bit};
ghost use Rattle.rv_table.specs.Arithmetic as arithmetic;

pub(crate) fn is_less_signed(a: u32, b: u32) -> bool
    ensures { result ≡ arithmetic.is_less_signed a b }
{
    a.cast_signed() < b.cast_signed()
}

pub(crate) fn truth(test: bool) -> u32
    ensures { result ≡ bit test }
{
    if test { 1 } else { 0 }
}

pub(crate) fn shifted_left(a: u32, b: u32) -> u32
    ensures { result ≡ arithmetic.shifted_left a b }
{
    a << (b % 32)
}

pub(crate) fn shifted_right(a: u32, b: u32) -> u32
    ensures { result ≡ arithmetic.shifted_right a b }
{
    a >> (b % 32)
}

pub(crate) fn shifted_right_signed(a: u32, b: u32) -> u32
    ensures { result ≡ arithmetic.shifted_right_signed a b }
{
    (a.cast_signed() >> (b % 32)).cast_unsigned()
}

pub(crate) fn product(a: u32, b: u32) -> u32
    ensures { result ≡ arithmetic.product a b }
{
    a.wrapping_mul(b)
}

pub(crate) fn upper_product_signed(a: u32, b: u32) -> u32
    ensures { result ≡ arithmetic.upper_half (arithmetic.signed a *ℤ arithmetic.signed b) }
{
    upper_half(signed(a) * signed(b))
}

pub(crate) fn upper_product_mixed(a: u32, b: u32) -> u32
    ensures { result ≡ arithmetic.upper_half (arithmetic.signed a *ℤ pos b) }
{
    upper_half(signed(a) * i64::from(b))
}

fn signed(a: u32) -> i64
    ensures value { result ≡ arithmetic.signed a }
    ensures bound { unsigned_abs result ≤ 2 ^ 31 }
{
    i64::from(a.cast_signed())
}

fn upper_half(product: i64) -> u32
    ensures { result ≡ arithmetic.upper_half product }
{
    (product.cast_unsigned() >> 32) as u32
}

pub(crate) fn upper_product(a: u32, b: u32) -> u32
    ensures { result ≡ arithmetic.upper_half (pos a *ℤ pos b) }
{
    ((u64::from(a) * u64::from(b)) >> 32) as u32
}

pub(crate) fn quotient_signed(a: u32, b: u32) -> u32
    ensures { result ≡ arithmetic.quotient_signed a b }
{
    if b == 0 {
        u32::MAX
    } else {
        a.cast_signed()
            .wrapping_div(b.cast_signed())
            .cast_unsigned()
    }
}

pub(crate) fn quotient(a: u32, b: u32) -> u32
    ensures { result ≡ arithmetic.quotient a b }
{
    if b == 0 { u32::MAX } else { a / b }
}

pub(crate) fn remainder_signed(a: u32, b: u32) -> u32
    ensures { result ≡ arithmetic.remainder_signed a b }
{
    if b == 0 {
        a
    } else {
        a.cast_signed()
            .wrapping_rem(b.cast_signed())
            .cast_unsigned()
    }
}

pub(crate) fn remainder(a: u32, b: u32) -> u32
    ensures { result ≡ arithmetic.remainder a b }
{
    if b == 0 { a } else { a % b }
}
