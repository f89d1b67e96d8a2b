//! The formula's clauses are taken up.

use crate::analysis::Stamps;
use crate::codes::{code_of, flip, narrow};
use crate::decisions::Decisions;
use crate::gave_up::GaveUp;
use crate::propagation::Propagation;
use crate::reason::{Conflict, Reason};
use crate::trail::Value;
use cnf_form::{Formula, clause_at};
use std::alloc::Global;

/// Takes up the clauses, each literal of one once, and without those that are true by two of their literals. Ends with
/// one that is false.
pub(crate) fn load(
    alloc: Global,
    propagation: &mut Propagation,
    decisions: &mut Decisions,
    formula: &Formula,
) -> Result<Option<Conflict>, GaveUp> {
    let mut stamps = Stamps::new(alloc);
    let mut codes = Vec::new(alloc);
    for index in 0..formula.len() {
        let is_true = put_codes(&mut codes, &mut stamps, clause_at(formula, index))?;
        let id = narrow(index).saturating_add(1);
        if !is_true {
            if let Some(conflict) = take(propagation, decisions, id, &codes)? {
                return Ok(Some(conflict));
            }
        }
    }
    Ok(None)
}

/// The codes of the literals, each once. Whether two of them are complements.
fn put_codes(codes: &mut Vec<u32>, stamps: &mut Stamps, lits: &[i64]) -> Result<bool, GaveUp> {
    codes.clear();
    stamps.begin();
    let mut is_true = false;
    for lit in lits {
        let Some(code) = code_of(*lit) else {
            return Err(GaveUp);
        };
        if stamps.put(code as usize)? {
            codes.push(code)?;
        }
        is_true = is_true || stamps.has(flip(code) as usize);
    }
    Ok(is_true)
}

fn take(
    propagation: &mut Propagation,
    decisions: &mut Decisions,
    id: u32,
    codes: &[u32],
) -> Result<Option<Conflict>, GaveUp> {
    for code in codes {
        decisions.meet(*code)?;
    }
    match codes {
        [] => Ok(Some(Conflict::Empty { id })),
        [lit] => take_unit(propagation, id, *lit),
        _ => {
            propagation.attach(id, codes)?;
            Ok(None)
        }
    }
}

fn take_unit(propagation: &mut Propagation, id: u32, lit: u32) -> Result<Option<Conflict>, GaveUp> {
    match propagation.trail.value(lit) {
        Value::True => Ok(None),
        Value::False => Ok(Some(Conflict::Unit { id, lit })),
        Value::Open => {
            propagation.trail.push(lit, Reason::Unit { id })?;
            Ok(None)
        }
    }
}
