//! Clauses of cuts: a variable for some of the gates of a graph, each told by the table of a cut of up to four leaves.
//!
//! - Cuts and covers, which are guesses: what is wrong with one is found where it is used.
//! - Tables of gates over the leaves of cuts, and clauses that are true exactly where a variable has the table's value.
//! - The clauses of nodes, as those of gates: their models are the numbers of sources.
#![tactic(auto)]

mod clause;
mod cone;
mod cube;
mod cut;
mod cuts;
mod leaves;
mod network;
mod nodes;
mod primes;
mod variables;

pub use network::{CutClauses, clauses_of_cuts};
pub use nodes::{NodeClauses, clauses_of_nodes};
