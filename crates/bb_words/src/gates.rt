//! Operators that take gates.
ghost use Rattle.std.specs.Prelude.{◌≡◌, ◌≤◌, if◌then◌else◌, [], ◌∷◌, length, IfOk};
ghost use Rattle.bb_aig.specs.Graph.{IsLit, lit_at};
ghost use Rattle.bb_aig.specs.Gates.{Grows, AreLits};
ghost use Rattle.bb_words.specs.Words.{IsWord, count};
ghost use Rattle.bb_words.specs.Operators.{MeansPair, MeansShift, of_bits};
ghost use Rattle.bb_words.specs.declared.operator.PairOperator.TheVariants as pair;
ghost use Rattle.bb_words.specs.declared.operator.ShiftOperator.TheVariants as moves;

use crate::constants::constant;
use crate::operator::{PairOperator, ShiftOperator};
use crate::pairs::{BitOperator, add, choose, is_less, is_same, operate};
use crate::product::multiply;
use crate::shifts::{Direction, shift};
use crate::without_gates::{top, turned, with_top_turned};
use bb_aig::{Gates, Lit};
use fv_text::{List, Memory};
use std::alloc::Global;

/// One literal.
fn single(alloc: Global, lit: Lit) -> Result<List<Lit>, Memory>
    ensures { IfOk result (λ r. r ≡ lit ∷ []) }
{
    let mut made = List::new(alloc);
    made.push(lit)?;
    Ok(made)
}

/// Each bit of the one with that of the other.
fn bitwise(
    alloc: Global,
    gates: &mut Gates,
    operator: BitOperator,
    a: &[Lit],
    b: &[Lit],
) -> Result<List<Lit>, Memory>
    requires each { length b.now ≡ length a.now }
    requires left { AreLits gates.old a.now }
    requires right { AreLits gates.old b.now }
    ensures grows { Grows gates.old gates.new }
    ensures word { IfOk result (MeansPair gates.old gates.new (of_bits operator) a.now b.now) }
{
    let made = operate(alloc, gates, operator, a, b)?;
    Ok(List::from_vec(made))
}

/// The sum, cut to the width.
fn sum(alloc: Global, gates: &mut Gates, a: &[Lit], b: &[Lit]) -> Result<List<Lit>, Memory>
    requires each { length b.now ≡ length a.now }
    requires left { AreLits gates.old a.now }
    requires right { AreLits gates.old b.now }
    ensures grows { Grows gates.old gates.new }
    ensures word { IfOk result (MeansPair gates.old gates.new pair.Add a.now b.now) }
{
    let none = constant(gates, false);
    let made = add(alloc, gates, a, b, none)?;
    Ok(List::from_vec(made))
}

/// The difference, cut to the width: the sum with the other bits turned, and 1.
fn difference(alloc: Global, gates: &mut Gates, a: &[Lit], b: &[Lit]) -> Result<List<Lit>, Memory>
    requires each { length b.now ≡ length a.now }
    requires left { AreLits gates.old a.now }
    requires right { AreLits gates.old b.now }
    ensures grows { Grows gates.old gates.new }
    ensures word { IfOk result (MeansPair gates.old gates.new pair.Sub a.now b.now) }
{
    let other = turned(alloc, b)?;
    let one = constant(gates, true);
    let made = add(alloc, gates, a, other.as_slice(), one)?;
    Ok(List::from_vec(made))
}

/// The product, cut to the width.
fn product(alloc: Global, gates: &mut Gates, a: &[Lit], b: &[Lit]) -> Result<List<Lit>, Memory>
    requires some { 1 ≤ length a.now }
    requires each { length b.now ≡ length a.now }
    requires left { AreLits gates.old a.now }
    requires right { AreLits gates.old b.now }
    ensures grows { Grows gates.old gates.new }
    ensures word { IfOk result (MeansPair gates.old gates.new pair.Mul a.now b.now) }
{
    let made = multiply(alloc, gates, a, b)?;
    Ok(List::from_vec(made))
}

/// Whether both are equal.
fn equal(alloc: Global, gates: &mut Gates, a: &[Lit], b: &[Lit]) -> Result<List<Lit>, Memory>
    requires each { length b.now ≡ length a.now }
    requires left { AreLits gates.old a.now }
    requires right { AreLits gates.old b.now }
    ensures grows { Grows gates.old gates.new }
    ensures word { IfOk result (MeansPair gates.old gates.new pair.Eq a.now b.now) }
{
    let yes = constant(gates, true);
    let lit = is_same(gates, a, b, yes)?;
    let made = single(alloc, lit)?;
    Ok(made)
}

/// Whether the one is less.
fn less(alloc: Global, gates: &mut Gates, a: &[Lit], b: &[Lit]) -> Result<List<Lit>, Memory>
    requires each { length b.now ≡ length a.now }
    requires left { AreLits gates.old a.now }
    requires right { AreLits gates.old b.now }
    ensures grows { Grows gates.old gates.new }
    ensures word { IfOk result (MeansPair gates.old gates.new pair.Ult a.now b.now) }
{
    let none = constant(gates, false);
    let lit = is_less(gates, a, b, none)?;
    let made = single(alloc, lit)?;
    Ok(made)
}

/// Whether the one is less, both read with a sign: with the sign bits turned, order is that of numbers without one.
fn less_signed(alloc: Global, gates: &mut Gates, a: &[Lit], b: &[Lit]) -> Result<List<Lit>, Memory>
    requires some { 1 ≤ length a.now }
    requires each { length b.now ≡ length a.now }
    requires left { AreLits gates.old a.now }
    requires right { AreLits gates.old b.now }
    ensures grows { Grows gates.old gates.new }
    ensures word { IfOk result (MeansPair gates.old gates.new pair.Slt a.now b.now) }
{
    let left = with_top_turned(alloc, a)?;
    let right = with_top_turned(alloc, b)?;
    let none = constant(gates, false);
    let lit = is_less(gates, left.as_slice(), right.as_slice(), none)?;
    let made = single(alloc, lit)?;
    Ok(made)
}

/// What the operator makes of two words.
pub fn operated(
    alloc: Global,
    gates: &mut Gates,
    operator: PairOperator,
    a: &[Lit],
    b: &[Lit],
) -> Result<List<Lit>, Memory>
    requires some { 1 ≤ length a.now }
    requires each { length b.now ≡ length a.now }
    requires left { AreLits gates.old a.now }
    requires right { AreLits gates.old b.now }
    ensures grows { Grows gates.old gates.new }
    ensures word { IfOk result (MeansPair gates.old gates.new operator a.now b.now) }
{
    match operator {
        PairOperator::And => bitwise(alloc, gates, BitOperator::And, a, b),
        PairOperator::Or => bitwise(alloc, gates, BitOperator::Or, a, b),
        PairOperator::Xor => bitwise(alloc, gates, BitOperator::Xor, a, b),
        PairOperator::Add => sum(alloc, gates, a, b),
        PairOperator::Sub => difference(alloc, gates, a, b),
        PairOperator::Mul => product(alloc, gates, a, b),
        PairOperator::Eq => equal(alloc, gates, a, b),
        PairOperator::Ult => less(alloc, gates, a, b),
        PairOperator::Slt => less_signed(alloc, gates, a, b),
    }
}

/// To the left.
fn left(alloc: Global, gates: &mut Gates, word: &[Lit], by: &[Lit]) -> Result<List<Lit>, Memory>
    requires some { 1 ≤ length word.now }
    requires left { AreLits gates.old word.now }
    requires right { AreLits gates.old by.now }
    ensures grows { Grows gates.old gates.new }
    ensures word { IfOk result (MeansShift gates.old gates.new moves.Shl word.now by.now) }
{
    let fill = constant(gates, false);
    let made = shift(alloc, gates, Direction::Up, fill, word, by)?;
    Ok(List::from_vec(made))
}

/// To the right, filled with 0.
fn right(alloc: Global, gates: &mut Gates, word: &[Lit], by: &[Lit]) -> Result<List<Lit>, Memory>
    requires some { 1 ≤ length word.now }
    requires left { AreLits gates.old word.now }
    requires right { AreLits gates.old by.now }
    ensures grows { Grows gates.old gates.new }
    ensures word { IfOk result (MeansShift gates.old gates.new moves.Lshr word.now by.now) }
{
    let fill = constant(gates, false);
    let made = shift(alloc, gates, Direction::Down, fill, word, by)?;
    Ok(List::from_vec(made))
}

/// To the right, filled with the sign bit.
fn right_by_sign(
    alloc: Global,
    gates: &mut Gates,
    word: &[Lit],
    by: &[Lit],
) -> Result<List<Lit>, Memory>
    requires some { 1 ≤ length word.now }
    requires left { AreLits gates.old word.now }
    requires right { AreLits gates.old by.now }
    ensures grows { Grows gates.old gates.new }
    ensures word { IfOk result (MeansShift gates.old gates.new moves.Ashr word.now by.now) }
{
    let fill = top(word);
    let made = shift(alloc, gates, Direction::Down, fill, word, by)?;
    Ok(List::from_vec(made))
}

/// The word shifted by the number of the other one.
pub fn shifted(
    alloc: Global,
    gates: &mut Gates,
    operator: ShiftOperator,
    word: &[Lit],
    by: &[Lit],
) -> Result<List<Lit>, Memory>
    requires some { 1 ≤ length word.now }
    requires left { AreLits gates.old word.now }
    requires right { AreLits gates.old by.now }
    ensures grows { Grows gates.old gates.new }
    ensures word { IfOk result (MeansShift gates.old gates.new operator word.now by.now) }
{
    match operator {
        ShiftOperator::Shl => left(alloc, gates, word, by),
        ShiftOperator::Lshr => right(alloc, gates, word, by),
        ShiftOperator::Ashr => right_by_sign(alloc, gates, word, by),
    }
}

/// The one word where the test is true, and else the other.
pub fn chosen(
    alloc: Global,
    gates: &mut Gates,
    test: Lit,
    a: &[Lit],
    b: &[Lit],
) -> Result<List<Lit>, Memory>
    requires test { IsLit gates.old test }
    requires each { length b.now ≡ length a.now }
    requires left { AreLits gates.old a.now }
    requires right { AreLits gates.old b.now }
    ensures grows { Grows gates.old gates.new }
    ensures word { IfOk result (IsWord gates.new (length a.now)
        (λ x. if lit_at gates.old x test then count gates.old x a.now else count gates.old x b.now)) }
{
    let made = choose(alloc, gates, test, a, b)?;
    Ok(List::from_vec(made))
}
