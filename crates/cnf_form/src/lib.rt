//! Formulas in conjunctive normal form.
#![tactic(auto)]

mod flat;
mod formula;
mod shared;

pub use flat::end_of;
pub use formula::{Formula, are_literals, clause_at};
