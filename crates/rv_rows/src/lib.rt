//! What the rows of RV32I and M do, as nodes of a net.
//!
//! - Multiplication and division of words, as nodes of a net: a restoring divider, the rows of extension M, and the
//!   results that stand for theirs.
//! - What the rows of RV32I and M do, as nodes of a net, over the nodes of an instruction that has found its sources.
#![tactic(auto)]

mod alternative;
mod division;
mod kinds;
mod memory;
mod multiply;
mod outcome;
mod rows;
mod signed;

pub use division::Division;
pub use outcome::OutcomeNodes;
pub use rows::base_effect;
