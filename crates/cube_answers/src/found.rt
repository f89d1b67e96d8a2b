//! Searches that are split into cubes.
ghost use Rattle.std.specs.Prelude.{IfOk, IfSome};
ghost use Rattle.lrat_check.specs.Steps.{AreSteps};
ghost use Rattle.sat_search.specs.Found.{IfSteps};

use crate::numbers::numbers;
use certificate_answers::parted;
use cnf_form::{Formula, clause_at};
use cnf_text::read_dimacs;
use fv_text::{List, Memory};
use lrat_check::{Step, lrat, verify};
use sat_cubes::solve_cubes;
use sat_search::Found;
use std::alloc::Global;
use std::thread::Threads;

/// How the search over `BUDGET CUBES JOBS ..|CLAUSES` ends, for each number of jobs that is named, and `same` where the
/// steps are the same for all of them.
pub(crate) fn put_found<R: Threads + Sync>(
    rt: &R,
    alloc: Global,
    out: &mut String,
    asked: &[u8],
    cnf: &[u8],
) -> Result<(), Memory> {
    let asked = numbers(alloc, asked)?;
    let [budget, cubes, jobs @ ..] = asked.as_slice() else {
        return Ok(out.push_str("no numbers")?)
    };
    let Ok(formula) = read_dimacs(alloc, cnf) else {
        return Ok(out.push_str("no clauses")?)
    };
    let mut texts = Vec::new(alloc);
    for many in jobs {
        if let Some(found) = solved(rt, alloc, &formula, *budget, *cubes, *many)? {
            put_end(alloc, out, &formula, &found)?;
            texts.push(text_of(alloc, &found)?)?;
        }
    }
    if are_same(texts.as_slice()) {
        out.push_str("same")?;
    }
    Ok(())
}

/// Whether each text is the first one.
fn are_same(texts: &[Vec<u8>]) -> bool {
    match texts.first() {
        Some(first) => texts.iter().all(|text| text == first),
        None => true,
    }
}

/// Whether the search over `BUDGET CUBES JOBS|CLAUSE|CLAUSES` refutes, and adds the clause.
pub(crate) fn put_added<R: Threads + Sync>(
    rt: &R,
    alloc: Global,
    out: &mut String,
    asked: &[u8],
    rest: &[u8],
) -> Result<(), Memory> {
    let (clause, cnf) = parted(rest);
    let clause = numbers(alloc, clause)?;
    let asked = numbers(alloc, asked)?;
    let [budget, cubes, jobs] = asked.as_slice() else {
        return Ok(out.push_str("no numbers")?)
    };
    let Ok(formula) = read_dimacs(alloc, cnf) else {
        return Ok(out.push_str("no clauses")?)
    };
    match solved(rt, alloc, &formula, *budget, *cubes, *jobs)? {
        Some(Found::Refuted(steps)) => put_whether_added(out, &steps, clause.as_slice()),
        _ => Ok(out.push_str("not refuted")?),
    }
}

fn put_whether_added(out: &mut String, steps: &List<Step>, clause: &[i64]) -> Result<(), Memory> {
    let is_added = steps.as_slice().iter().any(|step| is_added(step, clause));
    out.push_str(if is_added { "added" } else { "not added" })?;
    Ok(())
}

/// Whether the step adds a clause with the same literals.
fn is_added(step: &Step, clause: &[i64]) -> bool {
    match step {
        Step::Add { lits, .. } => {
            let lits = lits.as_slice();
            lits.iter().all(|lit| clause.contains(lit))
                && clause.iter().all(|lit| lits.contains(lit))
        }
        Step::Delete { .. } => false,
    }
}

/// The answer, where the numbers may be asked for.
fn solved<R: Threads + Sync>(
    rt: &R,
    alloc: Global,
    formula: &Formula,
    budget: i64,
    cubes: i64,
    jobs: i64,
) -> Result<Option<Found>, Memory>
    ensures { IfOk result (λ found. IfSome found (λ answer. IfSteps answer AreSteps)) }
{
    if budget <= 0 || cubes < 0 || cubes > 6 || jobs < 1 || jobs > 64 {
        return Ok(None);
    }
    let found = solve_cubes(rt, alloc, formula, budget as u64, cubes as u32, jobs as u32)?;
    Ok(Some(found))
}

/// `model` with the values, `refuted`, or `spent` with the number of steps; `wrong` before it where the values or the
/// steps don't hold.
fn put_end(alloc: Global, out: &mut String, formula: &Formula, found: &Found) -> Result<(), Memory>
    requires { IfSteps found.now AreSteps }
{
    match found {
        Found::Model(values) => {
            put_mark(out, all_true(values, formula))?;
            out.push_str("model ")?;
            for value in values.as_slice() {
                out.push_str(if *value { "1" } else { "0" })?;
            }
            out.push_str(" ")?;
        }
        Found::Refuted(steps) => {
            put_mark(out, verify(alloc, formula, steps.as_slice()).is_ok())?;
            out.push_str("refuted ")?;
        }
        Found::Spent(steps) => write!(out, "spent {} ", steps.len())?,
    }
    Ok(())
}

fn put_mark(out: &mut String, holds: bool) -> Result<(), Memory> {
    if !holds {
        out.push_str("wrong ")?;
    }
    Ok(())
}

/// The text of the steps, and nothing for a model.
fn text_of(alloc: Global, found: &Found) -> Result<Vec<u8>, Memory> {
    match found {
        Found::Model(_) => Ok(Vec::new(alloc)),
        Found::Refuted(steps) | Found::Spent(steps) => lrat(alloc, steps.as_slice()),
    }
}

fn all_true(values: &List<bool>, formula: &Formula) -> bool {
    values.len() as u64 == formula.vars()
        && (0..formula.len()).all(|index| clause_at(formula, index)
            .iter()
            .any(|lit| is_true(values, *lit)))
}

fn is_true(values: &List<bool>, lit: i64) -> bool {
    let index = lit.unsigned_abs().saturating_sub(1) as usize;
    match values.get(index) {
        Some(value) => *value == (lit > 0),
        None => false,
    }
}
