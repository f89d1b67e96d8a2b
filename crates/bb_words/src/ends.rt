//! Parts, joins and extensions of words.
ghost use Rattle.std.specs.Prelude.{◌≡◌, ◌+◌, ◌-◌, ◌≤◌, ◌++◌, ℕ, List, length, replicate};
ghost use Rattle.std.specs.Prelude.{IfOk};
ghost use Rattle.fv_bits.specs.Bits as num;
ghost use Rattle.bb_aig.specs.declared.node.AigNode.{AigNode};
ghost use Rattle.bb_aig.specs.Gates.{AreLits};
ghost use Rattle.bb_words.specs.Words.{IsWord, count};

use crate::constants::constant;
use crate::without_gates::{repeated, top};
use bb_aig::{Gates, Lit};
use fv_text::{List, Memory};
use std::alloc::Global;

/// The one word in front of the other.
pub fn joined(alloc: Global, high: &[Lit], low: &[Lit]) -> Result<List<Lit>, Memory>
    ensures { IfOk result (λ r. (graph : List AigNode) → AreLits graph high.now → AreLits graph low.now
        → IsWord graph (length high.now + length low.now)
        (λ x. num.joined (length low.now) (count graph x high.now) (count graph x low.now)) r) }
{
    let mut made = Vec::from_slice(alloc, low)?;
    made.extend_from_slice(high)?;
    Ok(List::from_vec(made))
}

/// So many bits, from the bit `low` on.
pub fn part(alloc: Global, word: &[Lit], low: usize, width: usize) -> Result<List<Lit>, Memory>
    requires { low + width ≤ length word.now }
    ensures { IfOk result (λ r. (graph : List AigNode) → AreLits graph word.now
        → IsWord graph width (λ x. num.part low width (count graph x word.now)) r) }
{
    let made = Vec::from_slice(alloc, &word[low..low + width])?;
    Ok(List::from_vec(made))
}

/// The word in so many bits, with the literal in front.
fn extended(alloc: Global, word: &[Lit], width: usize, fill: Lit) -> Result<Vec<Lit>, Memory>
    requires { length word.now ≤ width }
    ensures { IfOk result (λ r. r.items ≡ word.now ++ replicate (width - length word.now) fill) }
{
    let filled = repeated(alloc, fill, width - word.len())?;
    let mut made = Vec::from_slice(alloc, word)?;
    made.extend_from_slice(filled.as_slice())?;
    Ok(made)
}

/// The word in so many bits, with 0 in front.
pub fn zero_extended(
    alloc: Global,
    gates: &Gates,
    word: &[Lit],
    width: usize,
) -> Result<List<Lit>, Memory>
    requires wider { length word.now ≤ width }
    requires there { AreLits gates.now word.now }
    ensures { IfOk result (IsWord gates.now width (λ x. count gates.now x word.now)) }
{
    let none = constant(gates, false);
    let made = extended(alloc, word, width, none)?;
    Ok(List::from_vec(made))
}

/// The word in so many bits, with its highest bit in front.
pub fn sign_extended(alloc: Global, word: &[Lit], width: usize) -> Result<List<Lit>, Memory>
    requires some { 1 ≤ length word.now }
    requires wider { length word.now ≤ width }
    ensures { IfOk result (λ r. (graph : List AigNode) → AreLits graph word.now
        → IsWord graph width (λ x. num.sign_extended (length word.now) width (count graph x word.now)) r) }
{
    let made = extended(alloc, word, width, top(word))?;
    Ok(List::from_vec(made))
}
