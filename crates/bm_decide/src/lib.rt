//! What a question of a net comes to, by clauses and a search, and the choices of a run that gives what is sought.
//!
//! - From a net and a cycle to clauses: their models are exactly the runs, and which of them are bad.
//! - From clauses of runs to a verdict, by a search: no run is bad, or here is one that is, or the budget is used up.
//! - From a net and a question to its verdict: the bad runs are those that give what is sought.
//! - From the bits of a bad run to its choices, and to its trace.
#![tactic(auto)]

mod choosing;
mod chosen_law;
mod deciding;
mod numbers;
mod part;
mod runs;
mod search;
mod settling;
mod shared;
mod store;
mod tracing;
mod verdict;

pub use choosing::chosen_of;
pub use chosen_law::read_choices_are_the_nets;
pub use deciding::decide;
pub use runs::{RunClauses, clauses_of_runs};
pub use search::{Plain, Search};
pub use settling::settle;
pub use tracing::witness_trace;
pub use verdict::{Certificate, ChoiceBits, Verdict, Witness};
