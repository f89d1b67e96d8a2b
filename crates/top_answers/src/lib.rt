//! Runs of the top call over files in memory. A line of a case begins a piece of text, a file, a failing call or a run,
//! as `line.rt` says. This crate says what the crates under it answer, and promises nothing of its own.
#![tactic(auto)]

mod bench;
mod line;
mod meeting;

pub use crate::bench::{Asked, Bench};
