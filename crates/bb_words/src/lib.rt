//! The operators of a net on words of literals.
//!
//! - Words of literals, the lowest bit first: the operators of a net over gates, bit by bit.
//! - Shifts and products of words of literals, and words that need no gate, bit by bit.
//! - The operators of a net on words of literals: their numbers are those of the operators.
#![tactic(auto)]

mod constants;
mod ends;
mod gates;
mod operator;
mod pairs;
mod plain;
mod product;
mod shifts;
mod without_gates;

pub use constants::constant;
pub use ends::{joined, part, sign_extended, zero_extended};
pub use gates::{chosen, operated, shifted};
pub use operator::{PairOperator, ShiftOperator};
pub use pairs::is_any;
pub use plain::{konst, negated};
