//! What clauses of runs come to.
ghost use Rattle.std.specs.Prelude.{◌≡◌, ◌<◌, IfOk};
ghost use Rattle.bm_decide.specs.Settled.{Settles, verdict_of};

use crate::runs::RunClauses;
use crate::search::Search;
use crate::verdict::{Certificate, ChoiceBits, Verdict, Witness};
use bb_cuts::NodeClauses;
use bm_unroll::Frames;
use fv_text::Memory;
use sat_search::Found;
use std::alloc::Global;

/// What clauses of runs come to by a search, within a budget of learnt clauses.
///
/// Of whatever runs the clauses are, whichever of them are bad, and whatever is shown of them: no run is bad, and steps
/// refute the clauses; or here are the choices of a bad run; or the budget is used up. (`settled` of the proofs leads
/// from this contract there.)
pub fn settle<S: Search>(
    alloc: Global,
    search: &S,
    clauses: RunClauses,
    budget: u64,
) -> Result<Verdict, Memory>
    requires can { S.can_find search.now }
    requires budget { 0 < budget }
    ensures { IfOk result (Settles (S.more search.now budget) budget clauses) }
{
    let formula = &clauses.encoded.formula;
    let _ = formula.vars();
    let _ = formula.len();
    let found = search.find(alloc, formula, budget)?;
    Ok(verdict(clauses, found))
}

/// What was found, with the clauses that it was found for.
fn verdict(clauses: RunClauses, found: Found) -> Verdict
    ensures { result ≡ verdict_of clauses found }
{
    let RunClauses { frames, encoded } = clauses;
    let Frames {
        sources,
        widths,
        ..
    } = frames;
    let NodeClauses {
        formula,
        places,
        watch: fields,
    } = encoded;
    let bits = ChoiceBits {
        sources,
        widths,
        places,
    };
    match found {
        Found::Model(values) => Verdict::Once(Witness { values, bits }),
        Found::Refuted(steps) => Verdict::Never(Certificate {
            formula,
            steps,
            bits,
            fields,
        }),
        Found::Spent(steps) => Verdict::Spent(Certificate {
            formula,
            steps,
            bits,
            fields,
        }),
    }
}
