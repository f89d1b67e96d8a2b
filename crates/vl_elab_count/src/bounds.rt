//! How far bounds lie apart.
ghost use Rattle.std.specs.Prelude.{◌≡◌};
ghost use Rattle.fv_bits.specs.Bits.{as_int};
ghost use Rattle.vl_size.specs.Table.{span};
ghost use Rattle.vl_mean.specs.ConstantFaults.{capped};

use fv_bits::{is_below_zero, magnitude};
use vl_size::Own;

/// How many places lie from one bound to the other.
#[tactic(auto, using(vl_mean::proofs::SelectLemmas::apart))]
pub(crate) fn span_between(left: Own, right: Own) -> u64
    ensures { let l = as_int left.width left.signed left.number in
        let r = as_int right.width right.signed right.number in
        result ≡ capped (span l r) }
{
    let m = magnitude(left.width, left.signed, left.number);
    let n = magnitude(right.width, right.signed, right.number);
    let below = is_below_zero(left.width, left.signed, left.number);
    let gap = if below == is_below_zero(right.width, right.signed, right.number) {
        m.max(n) - m.min(n)
    } else {
        m.saturating_add(n)
    };
    gap.min(18_446_744_073_709_551_614) as u64 + 1
}
