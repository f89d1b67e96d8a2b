//! What is made of two words bit by bit.
ghost use Rattle.std.specs.Prelude.{◌≡◌, ◌&&◌, not, length, map, IfOk};
ghost use Rattle.bb_aig.specs.Graph.{IsLit, lit_at};
ghost use Rattle.bb_aig.specs.Bits.{add_bits, less_bits, same_bits, any_bit, differ, paired, pick};
ghost use Rattle.bb_aig.specs.Gates.{Meaning, Grows, IsMade, AreLits, AreMade, bits};
ghost use Rattle.bb_words.specs.WordsOperators.{of_operator};

use bb_aig::{Gates, Lit, add_three, complement, differ, either, mux};
use fv_text::Memory;
use std::alloc::Global;

/// An operator on each bit.
#[derive(Debug, Clone, Copy, PartialEq, Eq)]
pub enum BitOperator {
    And,
    Or,
    Xor,
}

impl BitOperator {
    /// The bit of two.
    fn gate(self, gates: &mut Gates, a: Lit, b: Lit) -> Result<Lit, Memory>
        requires left { IsLit gates.old a }
        requires right { IsLit gates.old b }
        ensures grows { Grows gates.old gates.new }
        ensures made { IfOk result (λ l. (f h : Meaning) → IsMade gates.old f a → IsMade gates.old h b
            → IsMade gates.new (λ x. of_operator self (f x) (h x)) l) }
    {
        match self {
            BitOperator::And => gates.and(a, b),
            BitOperator::Or => either(gates, a, b),
            BitOperator::Xor => differ(gates, a, b),
        }
    }
}

/// Each bit of the one with that of the other.
pub(crate) fn operate(
    alloc: Global,
    gates: &mut Gates,
    operator: BitOperator,
    a: &[Lit],
    b: &[Lit],
) -> Result<Vec<Lit>, Memory>
    requires each { length b.now ≡ length a.now }
    requires left { AreLits gates.old a.now }
    requires right { AreLits gates.old b.now }
    ensures grows { Grows gates.old gates.new }
    ensures made { IfOk result (λ r. AreMade gates.new
        (λ x. paired (of_operator operator) (bits gates.old x a.now) (bits gates.old x b.now)) r.items) }
{
    let mut out = Vec::new(alloc);
    for (index, lit) in a.iter().enumerate() {
        let bit = operator.gate(gates, *lit, b[index])?;
        out.push(bit)?;
    }
    Ok(out)
}

/// Each bit of the one where the test is true, and else of the other.
pub(crate) fn choose(
    alloc: Global,
    gates: &mut Gates,
    test: Lit,
    a: &[Lit],
    b: &[Lit],
) -> Result<Vec<Lit>, Memory>
    requires test { IsLit gates.old test }
    requires each { length b.now ≡ length a.now }
    requires left { AreLits gates.old a.now }
    requires right { AreLits gates.old b.now }
    ensures grows { Grows gates.old gates.new }
    ensures made { IfOk result (λ r. AreMade gates.new
        (λ x. paired (pick (lit_at gates.old x test)) (bits gates.old x a.now) (bits gates.old x b.now)) r.items) }
{
    let mut out = Vec::new(alloc);
    for (index, lit) in a.iter().enumerate() {
        let bit = mux(gates, test, *lit, b[index])?;
        out.push(bit)?;
    }
    Ok(out)
}

/// The sum of both words and a bit, as wide as they are: seven gates a bit.
pub(crate) fn add(
    alloc: Global,
    gates: &mut Gates,
    a: &[Lit],
    b: &[Lit],
    below: Lit,
) -> Result<Vec<Lit>, Memory>
    requires each { length b.now ≡ length a.now }
    requires left { AreLits gates.old a.now }
    requires right { AreLits gates.old b.now }
    requires below { IsLit gates.old below }
    ensures grows { Grows gates.old gates.new }
    ensures made { IfOk result (λ r. AreMade gates.new
        (λ x. add_bits (lit_at gates.old x below) (bits gates.old x a.now) (bits gates.old x b.now)) r.items) }
{
    let mut carry = below;
    let mut out = Vec::new(alloc);
    for (index, lit) in a.iter().enumerate() {
        let sum = add_three(gates, *lit, b[index], carry)?;
        out.push(sum.bit)?;
        carry = sum.carry;
    }
    Ok(out)
}

/// Whether the one is less, by one more bit of both: four gates.
fn less_step(gates: &mut Gates, a: Lit, b: Lit, less: Lit) -> Result<Lit, Memory>
    requires left { IsLit gates.old a }
    requires right { IsLit gates.old b }
    requires below { IsLit gates.old less }
    ensures grows { Grows gates.old gates.new }
    ensures made { IfOk result (λ l. (f h k : Meaning) → IsMade gates.old f a → IsMade gates.old h b
        → IsMade gates.old k less → IsMade gates.new (λ x. pick (differ (f x) (h x)) (h x) (k x)) l) }
{
    let below = gates.and(complement(a), b)?;
    let above = gates.and(a, complement(b))?;
    let still = gates.and(complement(above), less)?;
    let next = either(gates, below, still)?;
    Ok(next)
}

/// Whether the one word is less than the other, or, where both are equal, what is told.
pub(crate) fn is_less(gates: &mut Gates, a: &[Lit], b: &[Lit], below: Lit) -> Result<Lit, Memory>
    requires each { length b.now ≡ length a.now }
    requires left { AreLits gates.old a.now }
    requires right { AreLits gates.old b.now }
    requires below { IsLit gates.old below }
    ensures grows { Grows gates.old gates.new }
    ensures made { IfOk result (IsMade gates.new
        (λ x. less_bits (lit_at gates.old x below) (bits gates.old x a.now) (bits gates.old x b.now))) }
{
    let mut less = below;
    for (index, lit) in a.iter().enumerate() {
        less = less_step(gates, *lit, b[index], less)?;
    }
    Ok(less)
}

/// Whether both are equal so far, by one more bit of both: four gates.
fn same_step(gates: &mut Gates, a: Lit, b: Lit, same: Lit) -> Result<Lit, Memory>
    requires left { IsLit gates.old a }
    requires right { IsLit gates.old b }
    requires below { IsLit gates.old same }
    ensures grows { Grows gates.old gates.new }
    ensures made { IfOk result (λ l. (f h k : Meaning) → IsMade gates.old f a → IsMade gates.old h b
        → IsMade gates.old k same → IsMade gates.new (λ x. k x && not (differ (f x) (h x))) l) }
{
    let other = differ(gates, a, b)?;
    let next = gates.and(same, complement(other))?;
    Ok(next)
}

/// Whether both words are equal, where what is told is true.
pub(crate) fn is_same(gates: &mut Gates, a: &[Lit], b: &[Lit], told: Lit) -> Result<Lit, Memory>
    requires each { length b.now ≡ length a.now }
    requires left { AreLits gates.old a.now }
    requires right { AreLits gates.old b.now }
    requires told { IsLit gates.old told }
    ensures grows { Grows gates.old gates.new }
    ensures made { IfOk result (IsMade gates.new
        (λ x. same_bits (lit_at gates.old x told) (bits gates.old x a.now) (bits gates.old x b.now))) }
{
    let mut same = told;
    for (index, lit) in a.iter().enumerate() {
        same = same_step(gates, *lit, b[index], same)?;
    }
    Ok(same)
}

/// Each bit of the word where the bit is set, and else false.
pub(crate) fn masked(
    alloc: Global,
    gates: &mut Gates,
    bit: Lit,
    word: &[Lit],
) -> Result<Vec<Lit>, Memory>
    requires bit { IsLit gates.old bit }
    requires word { AreLits gates.old word.now }
    ensures grows { Grows gates.old gates.new }
    ensures made { IfOk result (λ r. AreMade gates.new
        (λ x. map (λ v. lit_at gates.old x bit && v) (bits gates.old x word.now)) r.items) }
{
    let mut out = Vec::new(alloc);
    for lit in word {
        let both = gates.and(bit, *lit)?;
        out.push(both)?;
    }
    Ok(out)
}

/// Whether any bit is set, or what is told.
pub fn is_any(gates: &mut Gates, word: &[Lit], told: Lit) -> Result<Lit, Memory>
    requires word { AreLits gates.old word.now }
    requires told { IsLit gates.old told }
    ensures grows { Grows gates.old gates.new }
    ensures made { IfOk result (IsMade gates.new
        (λ x. any_bit (lit_at gates.old x told) (bits gates.old x word.now))) }
{
    let mut any = told;
    for lit in word {
        any = either(gates, any, *lit)?;
    }
    Ok(any)
}
