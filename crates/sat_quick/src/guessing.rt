use crate::gave_up::GaveUp;
use crate::guess::Guess;
use crate::search::Search;
use cnf_form::{Formula, clause_at};
use std::alloc::Global;

/// So many variables a formula may have for each of its literals, and so many beside these. Tables are as long as the
/// variables are many, so that no number in a text makes them longer than the text allows.
const VARS_PER_LITERAL: usize = 8;

const MORE_VARS: usize = 1024;

/// Variables whose codes 32 bits hold, and clauses whose ids they do.
const MOST: usize = 1 << 30;

/// Values that may make the formula true, or steps that may refute it, with fewer learnt clauses than the budget; None
/// where the search gave up. Nothing is promised of either: who takes them judges them.
///
/// Of the steps each is one that the last one, the empty clause, rests on.
pub fn guess_answer(alloc: Global, formula: &Formula, budget: u64) -> Option<Guess> {
    match guess(alloc, formula, budget) {
        Ok(found) => Some(found),
        Err(_) => None,
    }
}

fn guess(alloc: Global, formula: &Formula, budget: u64) -> Result<Guess, GaveUp> {
    let vars = formula.vars() as usize;
    let count = formula.len();
    let room = count_literals(formula)
        .saturating_mul(VARS_PER_LITERAL)
        .saturating_add(MORE_VARS);
    if vars > room || vars > MOST || count > MOST {
        return Err(GaveUp);
    }
    let mut search = Search::new(alloc, vars, count as u32, budget)?;
    if search.run(formula)? {
        Ok(Guess::Model(search.values(vars)?))
    } else {
        Ok(Guess::Steps(search.steps()?))
    }
}

fn count_literals(formula: &Formula) -> usize {
    let mut count = 0usize;
    for index in 0..formula.len() {
        count = count.saturating_add(clause_at(formula, index).len());
    }
    count
}
