//! What lines say of sizes, signs, values and constants of expressions, each over the names, numbers and macros of
//! those before it. `line.rt` has the words that they begin with. This crate says what the crates under it answer, and
//! promises nothing of its own.
#![tactic(auto)]

mod bench;
mod line;
mod names;
mod read;
mod show;

pub use crate::bench::Bench;
