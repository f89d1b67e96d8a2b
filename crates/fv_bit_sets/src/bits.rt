ghost use Rattle.std.specs.Prelude.{◌≡◌, ℕ, ◌≤◌, ◌<◌, ◌&&◌, ◌||◌, not, true, false, IfOk};
ghost use Rattle.std.specs.Prelude.{IfSome};
ghost use Rattle.fv_bit_sets.specs.Cells.{has, is_set, IsBare, IsBefore};
ghost use Rattle.fv_bit_sets.specs.Ways.{Joins};

use crate::how::How;
use crate::merge::{first_in, joined, meet_in};
use crate::put::put;
use crate::run::run_at;
use crate::step::Step;
use fv_text::Memory;
use std::alloc::Global;
use std::marker::Model;

/// A set of bits of cells. Cells are numbered, each has 128 bits, and runs of cells with the same bits take the room of
/// one: each call is about linear in the number of such runs, and a question about one cell takes the logarithm of it.
#[derive(Debug, Drop)]
pub struct Bits {
    alloc: Global,
    steps: Vec<Step>,
}

impl Model for Bits {
    ghost use Rattle.std.specs.Prelude.{List, None};
    ghost use Rattle.fv_bit_sets.specs.declared.step.Step.{Step};
    ghost use Rattle.fv_bit_sets.specs.Cells.{AreRising};

    ghost Value = { List Step };

    ghost view = { λ b. b.steps.items };

    ghost invariant = { λ b. AreRising 0 None b.steps.items };
}

impl Bits {
    /// Without a bit.
    pub fn none(alloc: Global) -> Bits
        ensures { (cell : ℕ) → IsBare result cell }
    {
        Bits {
            alloc,
            steps: Vec::new(alloc),
        }
    }

    /// The bits of the mask, in each cell from the first up to the one before `past`.
    pub fn of_cells(alloc: Global, first: u64, past: u64, mask: u128) -> Result<Bits, Memory>
        requires { first < past }
        ensures inside { IfOk result (λ bits. (cell bit : ℕ) → first ≤ cell → cell < past
            → has bits cell bit ≡ is_set mask bit) }
        ensures before { IfOk result (λ bits. (cell : ℕ) → cell < first → IsBare bits cell) }
        ensures behind { IfOk result (λ bits. (cell : ℕ) → past ≤ cell → IsBare bits cell) }
    {
        let mut steps = Vec::new(alloc);
        put(&mut steps, Step { cell: first, mask })?;
        put(
            &mut steps,
            Step {
                cell: past,
                mask: 0,
            },
        )?;
        Ok(Bits { alloc, steps })
    }

    fn joined(&self, other: &Bits, how: How) -> Result<Bits, Memory>
        ensures { IfOk result (λ bits. Joins how self.now other.now bits) }
    {
        let steps = joined(
            self.alloc,
            how,
            self.steps.as_slice(),
            other.steps.as_slice(),
        )?;
        Ok(Bits {
            alloc: self.alloc,
            steps,
        })
    }

    /// The bits of one or both of them.
    pub fn with(&self, other: &Bits) -> Result<Bits, Memory>
        ensures { IfOk result (λ bits. (cell bit : ℕ)
            → has bits cell bit ≡ (has self.now cell bit || has other.now cell bit)) }
    {
        Ok(self.joined(other, How::Either)?)
    }

    /// The bits of both of them.
    pub fn shared_with(&self, other: &Bits) -> Result<Bits, Memory>
        ensures { IfOk result (λ bits. (cell bit : ℕ)
            → has bits cell bit ≡ (has self.now cell bit && has other.now cell bit)) }
    {
        Ok(self.joined(other, How::Both)?)
    }

    /// The bits that the other one hasn't.
    pub fn without(&self, other: &Bits) -> Result<Bits, Memory>
        ensures { IfOk result (λ bits. (cell bit : ℕ)
            → has bits cell bit ≡ (has self.now cell bit && not (has other.now cell bit))) }
    {
        Ok(self.joined(other, How::FirstAlone)?)
    }

    /// The bits of a cell, counted from the lowest.
    pub fn mask(&self, cell: u64) -> u128
        ensures { (bit : ℕ) → is_set result bit ≡ has self.now cell bit }
    {
        run_at(self.steps.as_slice(), cell).mask
    }

    /// The first cell from there on that has a bit. None exactly where none has one.
    pub fn first_from(&self, from: u64) -> Option<u64>
        ensures found { IfSome result (λ cell. (from ≤ cell) × ((bit : ℕ) × (has self.now cell bit ≡ true))) }
        ensures first { (cell : ℕ) → from ≤ cell → IsBefore cell result → IsBare self.now cell }
    {
        first_in(self.steps.as_slice(), from)
    }

    /// Whether some cell from the first up to the one before `past` has a bit in both sets.
    pub fn meets(&self, other: &Bits, first: u64, past: u64) -> bool
        ensures some { result ≡ true → (cell : ℕ) × (bit : ℕ) × (first ≤ cell) × (cell < past)
            × (has self.now cell bit ≡ true) × (has other.now cell bit ≡ true) }
        ensures none { result ≡ false → (cell bit : ℕ) → first ≤ cell → cell < past
            → (has self.now cell bit && has other.now cell bit) ≡ false }
    {
        meet_in(self.steps.as_slice(), other.steps.as_slice(), first, past)
    }
}
