//! Graphs in the ASCII format AIGER, from a question and to clauses.
//!
//! - From a net and a question to the text of an and-inverter graph over the bits that are chosen in the runs of a
//!   design, whose output is 1 exactly in the runs that give what is sought, with a name for each input.
//! - From the text of a graph to its clauses.
//! - That what a text says of a design without hierarchy it says of the design that the source writes: a law, without
//!   code.
#![tactic(auto)]

mod bit_name;
mod clauses;
mod graph;
pub mod graphs_law;
#[cfg(test)]
mod tests;
mod text;

pub use clauses::{GraphClauses, clauses_of_text};
pub use text::{GraphText, graph_text};
