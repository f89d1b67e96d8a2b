//! Numbers by their bits.

ghost use Rattle.std.specs.Prelude.{◌≡◌, ◌≤◌, length, take, drop, IfOk};
ghost use Rattle.std.specs.List.{AllByRecursion};
ghost use Rattle.wn_net.specs.Width.{IsWidth};
ghost use Rattle.bb_aig.specs.Bits.{number};
ghost use Rattle.bb_blast.specs.Choice.{numbers_of};
ghost use Rattle.bm_decide.specs.Chosen.{bit_in};

use fv_text::Memory;
use std::alloc::Global;

/// The number of bits, of which the lowest comes first.
fn number_of(bits: &[bool]) -> u128
    requires { length bits.now ≤ 128 }
    ensures { result ≡ number bits.now }
{
    let mut made = 0;
    for index in (0..bits.len()).rev() {
        made = 2 * made + u128::from(bits[index]);
    }
    made
}

/// The first so many bits, and those behind them.
fn cut(bits: &[bool], count: u32) -> (&[bool], &[bool])
    ensures first { result.0.now ≡ take count bits.now }
    ensures rest { result.1.now ≡ drop count bits.now }
{
    bits.split_at(bits.len().min(count as usize))
}

/// The numbers of words of these widths, one behind the other. A bit past the end is 0.
#[tactic(auto, using(crate::proofs::Bits::numbers_end))]
pub(crate) fn numbers_of(alloc: Global, bits: &[bool], widths: &[u32]) -> Result<Vec<u128>, Memory>
    requires { AllByRecursion IsWidth widths.now }
    ensures { IfOk result (λ made. made.items ≡ numbers_of widths.now (bit_in bits.now)) }
{
    let mut made = Vec::new(alloc);
    let mut rest = bits;
    for width in widths {
        let (word, behind) = cut(rest, *width);
        made.push(number_of(word))?;
        rest = behind;
    }
    Ok(made)
}
