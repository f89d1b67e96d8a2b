ghost use Rattle.std.specs.Prelude.{◌≤◌};
ghost use Rattle.std.specs.Thread.{IsSync};
ghost use Rattle.rvf_checks.specs.Known.{known_of};

use bm_decide::{Plain, Search};
use cnf_form::Formula;
use fv_text::Memory;
use sat_cubes::solve_cubes;
use sat_search::Found;
use std::alloc::Global;
use std::thread::Threads;

/// The search of each question's clauses, which may be split into cubes that are searched beside each other.
#[derive(Drop)]
pub struct Splitting<'a, R> {
    pub rt: &'a R,
    /// How many variables the clauses are split by, from 0 to 6. With 0 they are searched whole, on one thread.
    pub cubes: u32,
    /// How many cubes are searched beside each other, from 1 to 64.
    pub jobs: u32,
    pub ghost few_cubes: { cubes ≤ 6 },
    pub ghost some_jobs: { 1 ≤ jobs },
    pub ghost few_jobs: { jobs ≤ 64 },
}

impl<R: Threads + Sync> Search for Splitting<'_, R> {
    ghost more = { λ search. known_of search.cubes };

    // threads may share the handle: said here, since a method of a trait knows it of no type parameter
    ghost can_find = { λ _. IsSync R.row };

    fn find(&self, alloc: Global, formula: &Formula, budget: u64) -> Result<Found, Memory> {
        if self.cubes == 0 {
            return Plain.find(alloc, formula, budget);
        }
        solve_cubes(self.rt, alloc, formula, budget, self.cubes, self.jobs)
    }
}
