//! Tests of what no clause says, and examples of how a caller states what it adds to a net.
//!
//! - Tests of texts, lists, files, outputs and batches of jobs: what no clause says of them.
//! - Examples of how a caller states what it adds to a net, and what it runs of one.
//! - Tests of walks over graphs and of sets of bits: what no clause says of them.
#![tactic(auto)]

#[cfg(test)]
mod batches;
pub mod building;
#[cfg(test)]
mod outside;
pub mod running;
#[cfg(test)]
mod sets;
#[cfg(test)]
mod walks;
