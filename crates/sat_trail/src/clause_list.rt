ghost use Rattle.std.specs.Prelude.{◌≡◌, ◌<◌, ◌∷◌, ◌++◌, [], length, slice_index_or, OnOk, MatchOption};
ghost use Rattle.cnf_form.specs.Cnf.{AreClauses};
ghost use Rattle.sat_trail.specs.ClauseList.{TakenOut};

use cnf_form::{Formula, clause_at};
use fv_text::{List, Memory};
use std::alloc::Global;
use std::marker::Model;

/// Clauses by their places: those of a formula, which stand there alone, and behind them those that were learnt.
#[derive(Drop)]
pub struct ClauseList<'a> {
    given: &'a Formula,
    learnt: Vec<List<i64>>,
}

impl<'a> Model for ClauseList<'a> {
    ghost use Rattle.std.specs.Prelude.{List, ℤ, ◌++◌};

    ghost Value = { List (List ℤ) };

    ghost view = { λ c. c.given.now.clauses ++ c.learnt.items };
}

impl<'a> ClauseList<'a> {
    /// The formula's clauses.
    pub fn new(alloc: Global, formula: &'a Formula) -> ClauseList<'a>
        ensures value { result ≡ formula.now.clauses }
        ensures literals { AreClauses formula.now.vars result }
    {
        // Asked for what it says of the literals.
        let _many = formula.len();
        ClauseList {
            given: formula,
            learnt: Vec::new(alloc),
        }
    }

    pub fn len(&self) -> usize
        ensures { result ≡ length self.now }
    {
        self.given.len() + self.learnt.len()
    }

    /// The clause at the place.
    pub fn at(&self, place: usize) -> &[i64]
        requires { place < length self.now }
        ensures { result.now ≡ slice_index_or self.now place result.now }
    {
        let many = self.given.len();
        if place < many {
            clause_at(self.given, place)
        } else {
            self.learnt[place - many].as_slice()
        }
    }

    /// A learnt clause comes behind the others.
    pub fn push(&mut self, clause: List<i64>) -> Result<(), Memory>
        ensures { OnOk result (self.new ≡ self.old ++ clause ∷ []) }
    {
        self.learnt.push(clause)?;
        Ok(())
    }

    /// Takes out the clause at the place, to which the last one goes. None where the formula has it, or no clause
    /// stands there.
    pub fn swap_remove(&mut self, place: usize) -> Option<List<i64>>
        ensures { MatchOption result (self.new ≡ self.old) (λ clause. TakenOut self.old self.new place clause) }
    {
        let many = self.given.len();
        if place < many || self.learnt.len() <= place - many {
            return None;
        }
        Some(self.learnt.swap_remove(place - many))
    }
}
