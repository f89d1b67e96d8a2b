//! Operators that take no gate.
ghost use Rattle.std.specs.Prelude.{◌≡◌, ◌==◌, ◌%◌, if◌then◌else◌, ℕ, List, length, IfOk};
ghost use Rattle.fv_text.specs.Word as word_spec;
ghost use Rattle.fv_bits.specs.Bits as num;
ghost use Rattle.bb_aig.specs.declared.node.AigNode.{AigNode};
ghost use Rattle.bb_aig.specs.Gates.{AreLits};
ghost use Rattle.bb_words.specs.Words.{IsWord, count};

use crate::constants::constant;
use crate::without_gates::turned;
use bb_aig::{Gates, Lit};
use fv_text::{List, Memory, Word};
use std::alloc::Global;

/// Each bit turned.
pub fn negated(alloc: Global, word: &[Lit]) -> Result<List<Lit>, Memory>
    ensures { IfOk result (λ r. (graph : List AigNode) → AreLits graph word.now
        → IsWord graph (length word.now) (λ x. num.complement (length word.now) (count graph x word.now)) r) }
{
    let made = turned(alloc, word)?;
    Ok(List::from_vec(made))
}

/// The literal of the lowest bit of a number.
fn lowest(number: u128, one: Lit, zero: Lit) -> Lit
    ensures { result ≡ (if number % 2 == 1 then one else zero) }
{
    if number % 2 == 1 { one } else { zero }
}

/// The bits of a number.
pub fn konst(alloc: Global, gates: &Gates, word: &Word) -> Result<List<Lit>, Memory>
    ensures { IfOk result (IsWord gates.now word.now.width (λ x. word_spec.number word.now)) }
{
    let one = constant(gates, true);
    let zero = constant(gates, false);
    let mut left = word.value();
    let mut made = Vec::new(alloc);
    for index in 0..word.width() {
        made.push(lowest(left, one, zero))?;
        left /= 2;
    }
    Ok(List::from_vec(made))
}
