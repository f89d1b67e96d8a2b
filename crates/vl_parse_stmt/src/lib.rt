//! Reading tokens as statements (IEEE 1364-2005, section A.6).
#![tactic(auto)]

mod arm;
mod stmt;

pub use stmt::{read_initial, read_stmt};
