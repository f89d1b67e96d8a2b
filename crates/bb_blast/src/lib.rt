//! From words to bits: literals for each node of a net that has neither registers nor memories.
#![tactic(auto)]

mod blasted;
mod inputs;
mod node;
mod places;
mod roots;
mod walk;

pub use blasted::{Blasted, blast};
pub use places::Placed;
