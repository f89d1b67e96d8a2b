//! The clauses of a graph, and what models of clauses are of nodes that a graph was made of.
#![tactic(auto)]

mod clauses;

pub use clauses::{clauses_of, push_and, push_clause, push_true};
