//! A trace written as a value-change dump: definitions and the writer (IEEE 1364-2005, clause 18).
#![tactic(auto)]

mod digits;
mod examples;
mod write;

pub use write::vcd;
