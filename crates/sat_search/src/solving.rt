ghost use Rattle.std.specs.Prelude.{◌≡◌, ◌<◌, ◌^◌, ℕ, true, length, IfOk};
ghost use Rattle.cnf_form.specs.Cnf.{formula_true, value_of};
ghost use Rattle.lrat_check.specs.Steps.{Refutes, Valid, AreSteps};
ghost use Rattle.lrat_check.specs.Resolved.{Resolved, derived};
ghost use Rattle.lrat_check.specs.Texts.{AreShort};
ghost use Rattle.sat_search.specs.Added.{AreAdded};
ghost use Rattle.sat_search.specs.Ended.{Ends};
ghost use Rattle.sat_search.specs.Found.{EndsEmpty, IfModel, IfRefuted, IfSpent, IfSteps, nonempty};

use crate::found::Found;
use crate::judging::guessed;
use crate::search::Search;
use crate::turn::Turn;
use cnf_form::Formula;
use fv_text::Memory;
use std::alloc::Global;

/// Values that make the formula true, or steps that refute it, or, where that takes more learnt clauses than the
/// budget, the steps that learn so many.
///
/// The budget is a number of learnt clauses, the empty one aside. With `vars` variables a budget of `3^vars` is never
/// used up. The only error is want of memory, also where there are `MOST_CLAUSES` clauses or more.
pub fn solve(alloc: Global, formula: &Formula, budget: u64) -> Result<Found, Memory>
    requires { 0 < budget }
    ensures len { IfOk result (λ found. IfModel found (λ values. length values ≡ formula.now.vars)) }
    ensures model { IfOk result (λ found. IfModel found
        (λ values. formula_true (value_of values) formula.now.clauses ≡ true)) }
    ensures refuted { IfOk result (λ found. IfRefuted found
        (λ steps. (id : ℕ) × Refutes formula.now.clauses steps id × EndsEmpty steps id)) }
    ensures fewer { IfOk result (λ found. IfRefuted found
        (λ steps. length (nonempty (derived formula.now.clauses steps)) < budget)) }
    ensures valid { IfOk result (λ found. IfSpent found (λ steps. Valid formula.now.clauses steps)) }
    ensures resolved { IfOk result (λ found. IfSpent found (λ steps. Resolved formula.now.clauses steps)) }
    ensures spent { IfOk result (λ found. IfSpent found
        (λ steps. length (derived formula.now.clauses steps) ≡ budget)) }
    ensures bound { IfOk result (λ found. IfSpent found (λ steps. budget < 3 ^ formula.now.vars)) }
    ensures added { IfOk result (λ found. IfSteps found (λ steps. AreAdded formula.now.vars steps)) }
    ensures steps { IfOk result (λ found. IfSteps found AreSteps) }
    // No id, literal or hint has more than 18 digits.
    ensures short { IfOk result (λ found. IfSteps found (λ steps. formula.now.vars < 10 ^ 18 → AreShort steps)) }
{
    let found = find(alloc, formula, budget)?;
    Ok(found)
}

/// An answer that was guessed, if it holds; else the search goes through the formula, and it alone uses the budget up.
fn find(alloc: Global, formula: &Formula, budget: u64) -> Result<Found, Memory>
    requires { 0 < budget }
    ensures { IfOk result (λ found. Ends budget formula.now.vars formula.now.clauses found) }
{
    match guessed(alloc, formula, budget) {
        Some(found) => Ok(found),
        None => go_through(alloc, formula, budget),
    }
}

/// The search from its beginning to its end.
fn go_through(alloc: Global, formula: &Formula, budget: u64) -> Result<Found, Memory>
    requires { 0 < budget }
    ensures { IfOk result (λ found. Ends budget formula.now.vars formula.now.clauses found) }
{
    let mut search = match Search::new(alloc, formula, budget) {
        Ok(search) => search,
        Err(fault) => return Err(fault),
    };
    'turns: loop {
        let turn = search.turn()?;
        match turn {
            Turn::On => {}
            Turn::Satisfied => return Ok(Found::Model(search.values()?)),
            Turn::Refuted => return Ok(Found::Refuted(search.into_steps())),
            Turn::Spent => return Ok(Found::Spent(search.into_steps())),
        }
    }
}
