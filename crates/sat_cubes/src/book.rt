ghost use Rattle.std.specs.Prelude.{◌≡◌, ◌<◌, ◌^◌, [], length, IfOk, OnOk};
ghost use Rattle.sat_cubes.specs.Joined.{Adds};

use cnf_form::Formula;
use fv_text::{List, Memory};
use lrat_check::Step;
use sat_search::MOST_CLAUSES;
use std::alloc::Global;
use std::marker::Model;

/// Steps over a formula's clauses.
#[derive(Drop)]
pub(crate) struct Book {
    steps: List<Step>,
    /// The highest id so far.
    top: u64,
}

impl Model for Book {
    ghost use Rattle.sat_cubes.specs.Joined.{State};

    ghost Value = { State };

    ghost view = { λ b. record { steps = b.steps; top = b.top } };
}

impl Book {
    /// No step. The only error is want of memory, also where there are `MOST_CLAUSES` clauses or more.
    pub(crate) fn new(alloc: Global, formula: &Formula) -> Result<Book, Memory>
        ensures steps { IfOk result (λ book. book.steps ≡ []) }
        ensures top { IfOk result (λ book. book.top ≡ length formula.now.clauses) }
        ensures most { IfOk result (λ book. book.top < 10 ^ 18) }
    {
        if formula.len() >= MOST_CLAUSES {
            return Err(Memory);
        }
        Ok(Book {
            steps: List::new(alloc),
            top: formula.len() as u64,
        })
    }

    /// The highest id so far.
    pub(crate) fn top(&self) -> u64
        ensures { result ≡ self.now.top }
    {
        self.top
    }

    pub(crate) fn into_steps(self) -> List<Step>
        ensures { result ≡ self.steps }
    {
        let Book { steps, .. } = self;
        steps
    }

    /// Adds a clause under the next id. The only error is want of memory, also where `MOST_CLAUSES` ids are given.
    pub(crate) fn add(&mut self, lits: Vec<i64>, hints: Vec<i64>) -> Result<(), Memory>
        ensures { OnOk result (Adds self.old self.new lits.items hints.items) }
    {
        if self.top as usize >= MOST_CLAUSES {
            return Err(Memory);
        }
        let id = self.top + 1;
        self.steps.push(Step::Add {
            id,
            lits: List::from_vec(lits),
            hints: List::from_vec(hints),
        })?;
        self.top = id;
        Ok(())
    }
}
