ghost use Rattle.std.specs.Prelude.{◌≡◌, ◌<◌, ◌^◌, ℕ, List, length, true, IfOk};
ghost use Rattle.cnf_form.specs.Cnf.{Cnf, formula_true, value_of};
ghost use Rattle.lrat_check.specs.declared.step.Step.{Step};
ghost use Rattle.lrat_check.specs.Resolved.{Resolved, derived};
ghost use Rattle.lrat_check.specs.Steps.{AreSteps, Refutes, Valid};
ghost use Rattle.lrat_check.specs.Texts.{AreShort};
ghost use Rattle.sat_search.specs.Found.{EndsEmpty, IfModel, IfRefuted, IfSpent, IfSteps};
ghost use Rattle.bm_decide.specs.Searches.{TakesFewer};

use cnf_form::Formula;
use fv_text::Memory;
use sat_search::{Found, solve};
use std::alloc::Global;

/// A search for values that make a formula true, within a budget of learnt clauses.
pub trait Search: Sync {
    /// What is known of steps that refute a formula within a budget, beside that they do.
    ghost more: { Self → ℕ → Cnf → List Step → Type 0 };

    /// What has to hold for a search to begin.
    ghost can_find: { Self → Type 0 } = { λ _. Unit {0} };

    /// Values that make the formula true, or steps that refute it, or as many new clauses as the budget.
    fn find(&self, alloc: Global, formula: &Formula, budget: u64) -> Result<Found, Memory>
        requires can { can_find self.now }
        requires budget { 0 < budget }
        ensures model { IfOk result (λ found. IfModel found
            (λ values. formula_true (value_of values) formula.now.clauses ≡ true)) }
        ensures refuted { IfOk result (λ found. IfRefuted found
            (λ steps. (id : ℕ) × Refutes formula.now.clauses steps id × EndsEmpty steps id)) }
        ensures more { IfOk result (λ found. IfRefuted found (more self.now budget formula.now)) }
        ensures valid { IfOk result (λ found. IfSpent found (λ steps. Valid formula.now.clauses steps)) }
        ensures resolved { IfOk result (λ found. IfSpent found (λ steps. Resolved formula.now.clauses steps)) }
        ensures spent { IfOk result (λ found. IfSpent found
            (λ steps. length (derived formula.now.clauses steps) ≡ budget)) }
        ensures bound { IfOk result (λ found. IfSpent found (λ steps. budget < 3 ^ formula.now.vars)) }
        ensures steps { IfOk result (λ found. IfSteps found AreSteps) }
        // No id, literal or hint has more than 18 digits.
        ensures short { IfOk result (λ found. IfSteps found (λ steps. formula.now.vars < 10 ^ 18 → AreShort steps)) };
}

/// The search on one thread.
#[derive(Debug, Clone, Copy, PartialEq, Eq)]
pub struct Plain;

impl Search for Plain {
    ghost more = { λ search budget formula steps. TakesFewer budget formula steps };

    fn find(&self, alloc: Global, formula: &Formula, budget: u64) -> Result<Found, Memory> {
        solve(alloc, formula, budget)
    }
}
