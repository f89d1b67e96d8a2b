//! What properties of checks say of lists of retirements: types and definitions (documentation of riscv-formal, in this
//! project's profile).
#![tactic(auto)]

mod earlier;
mod retired;

pub use earlier::looks_both_ways;
pub use retired::{Probe, Retired};
