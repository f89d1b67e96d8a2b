ghost use Rattle.std.specs.Prelude.{◌≡◌, ◌<◌, ◌≤◌, ◌^◌, ◌++◌, ℕ, true, length, IfOk, OnOk};
ghost use Rattle.cnf_form.specs.Cnf.{formula_true, value_of};
ghost use Rattle.lrat_check.specs.Steps.{Refutes, Valid, AreSteps};
ghost use Rattle.lrat_check.specs.Resolved.{Resolved, derived};
ghost use Rattle.lrat_check.specs.Texts.{AreShort};
ghost use Rattle.rvf_jobs.specs.Answers.{AreAnswers};
ghost use Rattle.sat_search.specs.Found.{EndsEmpty, IfModel, IfRefuted, IfSpent, IfSteps};
ghost use Rattle.sat_cubes.specs.Splits.{TellsCubes};
ghost use Rattle.sat_cubes.specs.Joined.{CanSplit};
ghost use Rattle.sat_cubes.specs.Parts.{IsPart};

use crate::cube::power_of_two;
use crate::joining::joined;
use crate::outcome::{Outcome, outcome_of};
use crate::part::{Cubes, Part};
use crate::splitting::split_of;
use cnf_form::Formula;
use fv_text::Memory;
use rvf_jobs::run_jobs;
use sat_search::{Found, solve};
use std::alloc::Global;
use std::thread::Threads;

/// As `solve`, over the cubes of the `cubes` variables with the most literals in the formula, ties by the lower number,
/// or of all where there are fewer. Up to `jobs` cubes are searched beside each other.
///
/// Each cube's search has the budget divided by the number of cubes, rounded down, and at least 1. Where some cube has
/// a model, that of the lowest one is the answer; else, where all are refuted, steps that join their refutations; else
/// it is the answer of `solve`. The only error is want of memory, also where there are `MOST_CLAUSES` clauses or more.
pub fn solve_cubes<R: Threads + Sync>(
    rt: &R,
    alloc: Global,
    formula: &Formula,
    budget: u64,
    cubes: u32,
    jobs: u32,
) -> Result<Found, Memory>
    requires budget { 0 < budget }
    requires cubes { cubes ≤ 6 }
    requires jobs { (1 ≤ jobs) × (jobs ≤ 64) }
    ensures len { IfOk result (λ found. IfModel found (λ values. length values ≡ formula.now.vars)) }
    ensures model { IfOk result (λ found. IfModel found
        (λ values. formula_true (value_of values) formula.now.clauses ≡ true)) }
    ensures refuted { IfOk result (λ found. IfRefuted found
        (λ steps. (id : ℕ) × Refutes formula.now.clauses steps id × EndsEmpty steps id)) }
    ensures cubes { IfOk result (λ found. IfRefuted found (TellsCubes formula.now cubes budget)) }
    ensures valid { IfOk result (λ found. IfSpent found (λ steps. Valid formula.now.clauses steps)) }
    ensures resolved { IfOk result (λ found. IfSpent found (λ steps. Resolved formula.now.clauses steps)) }
    ensures spent { IfOk result (λ found. IfSpent found
        (λ steps. length (derived formula.now.clauses steps) ≡ budget)) }
    ensures bound { IfOk result (λ found. IfSpent found (λ steps. budget < 3 ^ formula.now.vars)) }
    ensures steps { IfOk result (λ found. IfSteps found AreSteps) }
    // No id, literal or hint has more than 18 digits.
    ensures short { IfOk result (λ found. IfSteps found (λ steps. formula.now.vars < 10 ^ 18 → AreShort steps)) }
{
    let _vars = formula.vars();
    let split = split_of(alloc, formula, cubes)?;
    let count = power_of_two(split.len());
    let job = Cubes {
        formula,
        split: split.as_slice(),
        share: (budget / count as u64).max(1),
    };
    match outcome_of(alloc, parts_of(rt, alloc, &job, count, jobs)?)? {
        Outcome::Model(values) => Ok(Found::Model(values)),
        Outcome::Refuted(refutations) => {
            let steps = joined(alloc, formula, split.as_slice(), refutations.as_slice())?;
            Ok(Found::Refuted(steps))
        }
        Outcome::Spent => solve(alloc, formula, budget),
    }
}

/// What comes of each cube, in their order.
fn parts_of<R: Threads + Sync>(
    rt: &R,
    alloc: Global,
    job: &Cubes,
    count: usize,
    jobs: u32,
) -> Result<Vec<Part>, Memory>
    requires can { CanSplit job.now.formula.now job.now.split.now }
    requires share { 0 < job.now.share }
    requires few { count ≤ 64 }
    requires jobs { 1 ≤ jobs }
    ensures { IfOk result (λ parts.
        AreAnswers (IsPart job.now.formula.now job.now.split.now job.now.share) 0 count parts.items) }
{
    let mut parts = Vec::with_capacity(alloc, count)?;
    'batches: while parts.len() < count {
        let many = (count - parts.len()).min(jobs as usize);
        let batch = run_jobs(rt, alloc, job, parts.len() as u32, many as u32)?;
        append(&mut parts, batch)?;
    }
    Ok(parts)
}

/// Puts the parts behind the others.
fn append(parts: &mut Vec<Part>, batch: Vec<Part>) -> Result<(), Memory>
    ensures { OnOk result (parts.new.items ≡ parts.old.items ++ batch.items) }
{
    for part in batch {
        parts.push(part)?;
    }
    Ok(())
}
