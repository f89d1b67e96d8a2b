ghost use Rattle.std.specs.Prelude.{◌≡◌, true, length, IsTrue, ◌↔◌, IfSome};
ghost use Rattle.std.specs.List.{AllByRecursion};
ghost use Rattle.cnf_form.specs.Cnf.{literal_true, clause_true, formula_true, value_of};
ghost use Rattle.lrat_check.specs.Texts.{IsShortLiteral};
ghost use Rattle.sat_search.specs.Found.{EndsEmpty};
ghost use Rattle.sat_search.specs.Turns.{IsRefuted};
ghost use Rattle.sat_search.specs.Ended.{Ends};
ghost use Rattle.sat_search.specs.Judging.{Rising, IsFit, AreFit, AddsEmpty};

use crate::found::Found;
use cnf_form::{Formula, are_literals, clause_at};
use lrat_check::{Step, verify};
use sat_quick::{Guess, guess_answer};
use std::alloc::Global;

/// Above all ids and hints of at most 18 digits.
const LONG: u64 = 1_000_000_000_000_000_000;

/// How a search ends, as another one guessed it that promises nothing: it is judged here. None where it doesn't hold,
/// or where that search found no end with fewer clauses than the budget.
pub(crate) fn guessed(alloc: Global, formula: &Formula, budget: u64) -> Option<Found>
    ensures { IfSome result (λ found. Ends budget formula.now.vars formula.now.clauses found) }
{
    let guess = guess_answer(alloc, formula, budget)?;
    match guess {
        Guess::Model(values) => {
            if is_model(formula, values.as_slice()) {
                return Some(Found::Model(values));
            }
            None
        }
        Guess::Steps(steps) => {
            if is_refutation(alloc, formula, budget, steps.as_slice()) {
                return Some(Found::Refuted(steps));
            }
            None
        }
    }
}

/// Whether each variable has a value, and these make the formula true.
fn is_model(formula: &Formula, values: &[bool]) -> bool
    ensures { IsTrue result ↔ ((length values.now ≡ formula.now.vars)
        × (formula_true (value_of values.now) formula.now.clauses ≡ true)) }
{
    values.len() as u64 == formula.vars() && all_true(formula, values)
}

fn all_true(formula: &Formula, values: &[bool]) -> bool
    ensures { result ≡ formula_true (value_of values.now) formula.now.clauses }
{
    for index in 0..formula.len() {
        if !any_true(clause_at(formula, index), values) {
            return false;
        }
    }
    true
}

fn any_true(lits: &[i64], values: &[bool]) -> bool
    ensures { result ≡ clause_true (value_of values.now) lits.now }
{
    for lit in lits {
        if is_true(lit, values) {
            return true;
        }
    }
    false
}

fn is_true(lit: &i64, values: &[bool]) -> bool
    ensures { result ≡ literal_true (value_of values.now) lit.now }
{
    let value = value_at(values, lit.unsigned_abs());
    if *lit < 0 { !value } else { value }
}

fn value_at(values: &[bool], var: u64) -> bool
    ensures { result ≡ value_of values.now var }
{
    match values.get((var as usize).saturating_sub(1)) {
        Some(value) => *value,
        None => false,
    }
}

/// Whether the checker accepts the steps; fewer clauses than the budget are derived, of variables of the formula, none
/// with complements; the last one alone is empty, and no number is long. Steps that delete are refused.
fn is_refutation(alloc: Global, formula: &Formula, budget: u64, steps: &[Step]) -> bool
    ensures { IsTrue result → IsRefuted budget formula.now.clauses formula.now.vars steps.now }
{
    if steps.len() as u64 > budget || !are_fit(steps, formula.vars()) {
        return false;
    }
    match verify(alloc, formula, steps) {
        Ok(refuted) => ends_empty(steps, refuted.id),
        Err(_) => false,
    }
}

fn are_fit(steps: &[Step], vars: u64) -> bool
    ensures { IsTrue result ↔ AreFit vars steps.now }
{
    for step in steps {
        if !is_fit(step, vars) {
            return false;
        }
    }
    true
}

fn is_fit(step: &Step, vars: u64) -> bool
    ensures { IsTrue result ↔ IsFit vars step.now }
{
    match step {
        Step::Add { id, lits, hints } => {
            *id < LONG
                && are_literals(lits.as_slice(), vars)
                && are_rising(lits.as_slice())
                && are_short(hints.as_slice())
        }
        Step::Delete { .. } => false,
    }
}

/// Whether each literal's variable is above the one before it, so that none stands beside its complement.
fn are_rising(lits: &[i64]) -> bool
    ensures { IsTrue result ↔ Rising 0 lits.now }
{
    let mut last = 0;
    for lit in lits {
        let var = lit.unsigned_abs();
        if var <= last {
            return false;
        }
        last = var;
    }
    true
}

fn are_short(hints: &[i64]) -> bool
    ensures { IsTrue result ↔ AllByRecursion IsShortLiteral hints.now }
{
    for hint in hints {
        if !is_short(hint) {
            return false;
        }
    }
    true
}

fn is_short(hint: &i64) -> bool
    ensures { IsTrue result ↔ IsShortLiteral hint.now }
{
    let id = hint.unsigned_abs();
    0 < id && id < LONG
}

/// Whether the last step adds the empty clause under the id.
fn ends_empty(steps: &[Step], id: u64) -> bool
    ensures { IsTrue result → EndsEmpty steps.now id }
{
    match steps.last() {
        Some(step) => adds_empty(step, id),
        None => false,
    }
}

fn adds_empty(step: &Step, id: u64) -> bool
    ensures { IsTrue result → AddsEmpty id step.now }
{
    match step {
        Step::Add { id: own, lits, .. } => *own == id && lits.is_empty(),
        Step::Delete { .. } => false,
    }
}
