//! Copies of a number, one behind the other, in a context (IEEE 1364-2005, section 5.1.14).
ghost use Rattle.std.specs.Prelude.{◌≡◌, ◌<◌, ◌≤◌, ◌^◌, nat_abs};
ghost use Rattle.fv_bits.specs.Bits.{as_int, extended};
ghost use Rattle.vl_size.specs.Size as spec;

use fv_bits::extended;
use vl_size::Own;
use vl_size::select::{copies, times};

/// The value of so many copies of a number where its size and sign come from the context; 0 where they have no size.
pub(crate) fn repeated(count: Own, part: Own, width: u32, signed: bool) -> u128
    requires some { 1 ≤ part.width }
    requires few { width ≤ 128 }
    ensures value { let c = as_int count.width count.signed count.number in
        result ≡ spec.with_size (spec.times c part.width)
        (λ m. extended m width signed (spec.copies (nat_abs c) part.width part.number)) }
    ensures fits { result < 2 ^ width }
{
    match times(count, part.width) {
        None => 0,
        Some(size) => extended(
            size,
            width,
            signed,
            copies(count.number as u32, part.width, part.number),
        ),
    }
}
