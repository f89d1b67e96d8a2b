//! Shifts by a word: one choice for each bit of it that can count, and one for all others.
ghost use Rattle.std.specs.Prelude.{◌≡◌, ℕ, ◌<◌, ◌≤◌, ◌^◌, length, IfOk};
ghost use Rattle.bb_aig.specs.Graph.{IsLit, lit_at};
ghost use Rattle.bb_aig.specs.Bits.{paired, pick};
ghost use Rattle.bb_aig.specs.Gates.{Grows, AreLits, AreMade, bits};
ghost use Rattle.bb_words.specs.Moves as spec;

use crate::constants::constant;
use crate::pairs::{choose, is_any};
use crate::without_gates::repeated;
use bb_aig::{Gates, Lit};
use fv_text::Memory;
use std::alloc::Global;

/// Where bits are moved to.
#[derive(Debug, Clone, Copy, PartialEq, Eq)]
pub enum Direction {
    /// To the left: each bit counts for more.
    Up,
    /// To the right.
    Down,
}

/// Moved up, with the literal in the places that are left.
fn moved_up(alloc: Global, fill: Lit, by: usize, word: &[Lit]) -> Result<Vec<Lit>, Memory>
    requires { by ≤ length word.now }
    ensures { IfOk result (λ r. r.items ≡ spec.moved Direction.Up fill by word.now) }
{
    let mut made = repeated(alloc, fill, by)?;
    made.extend_from_slice(&word[..word.len() - by])?;
    Ok(made)
}

/// Moved down, with the literal in the places that are left.
fn moved_down(alloc: Global, fill: Lit, by: usize, word: &[Lit]) -> Result<Vec<Lit>, Memory>
    requires { by ≤ length word.now }
    ensures { IfOk result (λ r. r.items ≡ spec.moved Direction.Down fill by word.now) }
{
    let filled = repeated(alloc, fill, by)?;
    let mut made = Vec::from_slice(alloc, &word[by..])?;
    made.extend_from_slice(filled.as_slice())?;
    Ok(made)
}

/// Moved by so many places, with the literal in those that are left.
pub(crate) fn moved(
    alloc: Global,
    direction: Direction,
    fill: Lit,
    by: usize,
    word: &[Lit],
) -> Result<Vec<Lit>, Memory>
    requires { by ≤ length word.now }
    ensures { IfOk result (λ r. r.items ≡ spec.moved direction fill by word.now) }
{
    match direction {
        Direction::Up => moved_up(alloc, fill, by, word),
        Direction::Down => moved_down(alloc, fill, by, word),
    }
}

/// Moved by so many places where the test is true.
fn shift_step(
    alloc: Global,
    gates: &mut Gates,
    direction: Direction,
    fill: Lit,
    by: usize,
    test: Lit,
    word: &[Lit],
) -> Result<Vec<Lit>, Memory>
    requires within { by ≤ length word.now }
    requires fill { IsLit gates.old fill }
    requires test { IsLit gates.old test }
    requires word { AreLits gates.old word.now }
    ensures grows { Grows gates.old gates.new }
    ensures made { IfOk result (λ r. AreMade gates.new (λ x. paired (pick (lit_at gates.old x test))
        (spec.moved direction (lit_at gates.old x fill) by (bits gates.old x word.now)) (bits gates.old x word.now))
        r.items) }
{
    let moved = moved(alloc, direction, fill, by, word)?;
    let made = choose(alloc, gates, test, moved.as_slice(), word)?;
    Ok(made)
}

#[tactic(auto, using(std::proofs::lemmas::Nat::one_shl))]
fn power(exponent: usize) -> usize
    requires { exponent < 64 }
    ensures { result ≡ 2 ^ exponent }
{
    1usize << exponent
}

/// How many bits of an amount of so many bits may count: by a higher one, every bit of a word leaves it.
fn levels(width: usize, most: usize) -> usize
    ensures few { result ≤ most }
    ensures fits { result ≤ 64 }
    ensures below { (i : ℕ) → i < result → 2 ^ i < width }
    ensures enough { result < most → width ≤ 2 ^ result }
{
    for levels in 0..64 {
        if levels >= most || width <= power(levels) {
            return levels;
        }
    }
    64
}

/// The word moved by the number of the other one. Where that is the width or more, the literal is in all places.
pub(crate) fn shift(
    alloc: Global,
    gates: &mut Gates,
    direction: Direction,
    fill: Lit,
    word: &[Lit],
    by: &[Lit],
) -> Result<Vec<Lit>, Memory>
    requires fill { IsLit gates.old fill }
    requires left { AreLits gates.old word.now }
    requires right { AreLits gates.old by.now }
    ensures grows { Grows gates.old gates.new }
    ensures made { IfOk result (λ r. AreMade gates.new (λ x. spec.shift_bits direction (lit_at gates.old x fill) 1
        (bits gates.old x word.now) (bits gates.old x by.now)) r.items) }
{
    let levels = levels(word.len(), by.len());
    let copy = Vec::from_slice(alloc, word)?;
    let mut shifted = copy;
    for index in 0..levels {
        shifted = shift_step(
            alloc,
            gates,
            direction,
            fill,
            power(index),
            by[index],
            shifted.as_slice(),
        )?;
    }
    let none = constant(gates, false);
    let past = is_any(gates, &by[levels..], none)?;
    let filled = repeated(alloc, fill, word.len())?;
    let made = choose(alloc, gates, past, filled.as_slice(), shifted.as_slice())?;
    Ok(made)
}
