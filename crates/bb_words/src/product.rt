//! Products: the rows of an array, one added to the other.
ghost use Rattle.std.specs.Prelude.{◌≡◌, ◌&&◌, ◌≤◌, false, length, map, replicate, IfOk};
ghost use Rattle.bb_aig.specs.Graph.{IsLit, lit_at};
ghost use Rattle.bb_aig.specs.Bits.{add_bits, mul_bits};
ghost use Rattle.bb_aig.specs.Gates.{Grows, AreLits, AreMade, bits};

use crate::constants::constant;
use crate::pairs::{add, masked};
use crate::shifts::{Direction, moved};
use crate::without_gates::repeated;
use bb_aig::{Gates, Lit};
use fv_text::Memory;
use std::alloc::Global;

/// The sum so far with one more row: the word where the bit is set.
fn add_row(
    alloc: Global,
    gates: &mut Gates,
    sum: &[Lit],
    row: &[Lit],
    bit: Lit,
) -> Result<Vec<Lit>, Memory>
    requires each { length row.now ≡ length sum.now }
    requires left { AreLits gates.old sum.now }
    requires right { AreLits gates.old row.now }
    requires bit { IsLit gates.old bit }
    ensures grows { Grows gates.old gates.new }
    ensures made { IfOk result (λ r. AreMade gates.new (λ x. add_bits false (bits gates.old x sum.now)
        (map (λ v. lit_at gates.old x bit && v) (bits gates.old x row.now))) r.items) }
{
    let masked = masked(alloc, gates, bit, row)?;
    let none = constant(gates, false);
    let made = add(alloc, gates, sum, masked.as_slice(), none)?;
    Ok(made)
}

/// The product, as wide as the first word. A full adder of a row with a bit that is moved in needs no gate.
pub fn multiply(alloc: Global, gates: &mut Gates, a: &[Lit], b: &[Lit]) -> Result<Vec<Lit>, Memory>
    requires some { 1 ≤ length a.now }
    requires left { AreLits gates.old a.now }
    requires right { AreLits gates.old b.now }
    ensures grows { Grows gates.old gates.new }
    ensures made { IfOk result (λ r. AreMade gates.new
        (λ x. mul_bits (replicate (length a.now) false) (bits gates.old x a.now) (bits gates.old x b.now)) r.items) }
{
    let none = constant(gates, false);
    let zeros = repeated(alloc, none, a.len())?;
    let copy = Vec::from_slice(alloc, a)?;
    let mut sum = zeros;
    let mut row = copy;
    for bit in b {
        sum = add_row(alloc, gates, sum.as_slice(), row.as_slice(), *bit)?;
        row = moved(alloc, Direction::Up, none, 1, row.as_slice())?;
    }
    Ok(sum)
}
