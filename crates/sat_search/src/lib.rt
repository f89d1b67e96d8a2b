//! The search that learns clauses: those that it holds, which variable is tried next, and its turns.
//!
//! - The clauses that a search holds, with the steps that add and delete them, and which of those that it learns are
//!   new.
//! - Which variable a search decides next, and how.
//! - What another search guessed, where it holds.
//! - A search that learns clauses: values that make a formula true, or steps that refute it, or, where the budget is
//!   used up, steps that derive as many clauses as the budget.
#![tactic(auto)]

mod found;
mod heap;
mod ids;
mod judging;
mod ledger;
mod order;
mod search;
mod shared;
mod solving;
mod turn;
mod usage;

pub use found::Found;
pub use ledger::MOST_CLAUSES;
pub use solving::solve;
