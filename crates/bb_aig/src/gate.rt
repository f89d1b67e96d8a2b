//! Gates that are made of others.
ghost use Rattle.std.specs.Prelude.{◌≡◌, ◌<◌, not, ◌&&◌, ◌||◌, IfOk};
ghost use Rattle.bb_aig.specs.Graph.{IsLit};
ghost use Rattle.bb_aig.specs.Bits as bits;
ghost use Rattle.bb_aig.specs.Gates.{Meaning, Grows, IsMade};

use crate::graph::Gates;
use crate::node::{Lit, complement};
use fv_text::Memory;

/// One or both.
pub fn either(gates: &mut Gates, a: Lit, b: Lit) -> Result<Lit, Memory>
    requires left { IsLit gates.old a }
    requires right { IsLit gates.old b }
    ensures grows { Grows gates.old gates.new }
    ensures made { IfOk result (λ l. (f h : Meaning) → IsMade gates.old f a → IsMade gates.old h b
        → IsMade gates.new (λ x. f x || h x) l) }
{
    let neither = gates.and(complement(a), complement(b))?;
    Ok(complement(neither))
}

/// A bit of a sum, and what is carried into the next.
#[derive(Clone, Copy)]
pub struct Sum {
    pub bit: Lit,
    pub carry: Lit,
}

/// The sum of two bits: three gates.
fn add_two(gates: &mut Gates, a: Lit, b: Lit) -> Result<Sum, Memory>
    requires left { IsLit gates.old a }
    requires right { IsLit gates.old b }
    ensures grows { Grows gates.old gates.new }
    ensures bit { IfOk result (λ s. (f h : Meaning) → IsMade gates.old f a → IsMade gates.old h b
        → IsMade gates.new (λ x. bits.differ (f x) (h x)) s.bit) }
    ensures carry { IfOk result (λ s. (f h : Meaning) → IsMade gates.old f a → IsMade gates.old h b
        → IsMade gates.new (λ x. f x && h x) s.carry) }
{
    let carry = gates.and(a, b)?;
    let neither = gates.and(complement(a), complement(b))?;
    let bit = gates.and(complement(carry), complement(neither))?;
    Ok(Sum { bit, carry })
}

/// Exactly one: three gates.
pub fn differ(gates: &mut Gates, a: Lit, b: Lit) -> Result<Lit, Memory>
    requires left { IsLit gates.old a }
    requires right { IsLit gates.old b }
    ensures grows { Grows gates.old gates.new }
    ensures made { IfOk result (λ l. (f h : Meaning) → IsMade gates.old f a → IsMade gates.old h b
        → IsMade gates.new (λ x. bits.differ (f x) (h x)) l) }
{
    let sum = add_two(gates, a, b)?;
    Ok(sum.bit)
}

/// The sum of three bits: seven gates.
pub fn add_three(gates: &mut Gates, a: Lit, b: Lit, c: Lit) -> Result<Sum, Memory>
    requires left { IsLit gates.old a }
    requires right { IsLit gates.old b }
    requires below { IsLit gates.old c }
    ensures grows { Grows gates.old gates.new }
    ensures bit { IfOk result (λ s. (f h k : Meaning) → IsMade gates.old f a → IsMade gates.old h b
        → IsMade gates.old k c
        → IsMade gates.new (λ x. bits.summed (f x) (h x) (k x)) s.bit) }
    ensures carry { IfOk result (λ s. (f h k : Meaning) → IsMade gates.old f a → IsMade gates.old h b
        → IsMade gates.old k c → IsMade gates.new (λ x. bits.carried (f x) (h x) (k x)) s.carry) }
{
    let first = add_two(gates, a, b)?;
    let second = add_two(gates, first.bit, c)?;
    let carry = either(gates, first.carry, second.carry)?;
    Ok(Sum {
        bit: second.bit,
        carry,
    })
}

/// The one where the test is true, and else the other: three gates.
pub fn mux(gates: &mut Gates, test: Lit, a: Lit, b: Lit) -> Result<Lit, Memory>
    requires test { IsLit gates.old test }
    requires left { IsLit gates.old a }
    requires right { IsLit gates.old b }
    ensures grows { Grows gates.old gates.new }
    ensures made { IfOk result (λ l. (t f h : Meaning) → IsMade gates.old t test → IsMade gates.old f a
        → IsMade gates.old h b → IsMade gates.new (λ x. bits.pick (t x) (f x) (h x)) l) }
{
    let first = gates.and(test, a)?;
    let second = gates.and(complement(test), b)?;
    let chosen = either(gates, first, second)?;
    Ok(chosen)
}
