//! The steps that the last one rests on, with ids without a gap.

use crate::codes::lit_of;
use crate::gave_up::GaveUp;
use crate::log::Log;
use fv_text::List;
use lrat_check::Step;
use std::alloc::Global;

/// The derived clauses that the last one rests on, as steps.
pub(crate) fn steps_of(alloc: Global, log: &Log) -> Result<List<Step>, GaveUp> {
    let used = used_places(alloc, log)?;
    let ids = new_ids(alloc, log, &used)?;
    let mut steps = List::new(alloc);
    for place in 0..log.len() {
        if is_in(&used, place) {
            steps.push(step_at(alloc, log, &ids, place)?)?;
        }
    }
    Ok(steps)
}

/// Which derived clauses the last one rests on.
fn used_places(alloc: Global, log: &Log) -> Result<Vec<bool>, GaveUp> {
    let mut used = Vec::new(alloc);
    used.resize(log.len(), false)?;
    if let Some(last) = used.last_mut() {
        *last = true;
    }
    for back in 0..log.len() {
        let place = log.len().saturating_sub(back).saturating_sub(1);
        if is_in(&used, place) {
            for hint in log.hints(place) {
                mark(&mut used, log.place_of(*hint));
            }
        }
    }
    Ok(used)
}

fn is_in(used: &[bool], place: usize) -> bool {
    match used.get(place) {
        Some(used) => *used,
        None => false,
    }
}

fn mark(used: &mut Vec<bool>, place: Option<usize>) {
    if let Some(place) = place {
        if let Some(used) = used.get_mut(place) {
            *used = true;
        }
    }
}

/// The ids of the clauses that stay, by the places of all: those behind the formula's, in order.
fn new_ids(alloc: Global, log: &Log, used: &[bool]) -> Result<Vec<i64>, GaveUp> {
    let mut ids = Vec::with_capacity(alloc, used.len())?;
    let mut top = i64::from(log.first());
    for used in used {
        if *used {
            top = top.saturating_add(1);
        }
        ids.push(top)?;
    }
    Ok(ids)
}

fn id_at(ids: &[i64], place: usize) -> i64 {
    match ids.get(place) {
        Some(id) => *id,
        None => 0,
    }
}

/// The step that adds the clause at the place, its literals by the order of their variables.
fn step_at(alloc: Global, log: &Log, ids: &[i64], place: usize) -> Result<Step, GaveUp> {
    let mut codes = Vec::from_slice(alloc, log.lits(place))?;
    codes.sort_unstable();
    let mut lits = Vec::with_capacity(alloc, codes.len())?;
    for code in codes.iter() {
        lits.push(lit_of(*code))?;
    }
    let old = log.hints(place);
    let mut hints = Vec::with_capacity(alloc, old.len())?;
    for hint in old {
        hints.push(match log.place_of(*hint) {
            Some(place) => id_at(ids, place),
            None => i64::from(*hint),
        })?;
    }
    Ok(Step::Add {
        id: id_at(ids, place).unsigned_abs(),
        lits: List::from_vec(lits),
        hints: List::from_vec(hints),
    })
}
