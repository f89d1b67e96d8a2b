//! Reading tokens as expressions (IEEE 1364-2005, section A.8).
#![tactic(auto)]

mod expr;
mod level;
mod make;

pub use expr::{read_expr, read_parens, read_selects};
pub use make::number;
