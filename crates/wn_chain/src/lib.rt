//! A memory as a chain of writes.
//!
//! A write costs no node. A read takes a test of two addresses for each write, and looks at the newest write first and
//! at the words that the memory begins with last.
#![tactic(auto)]

mod chain;
mod read;
mod writes;

pub use chain::Chain;
