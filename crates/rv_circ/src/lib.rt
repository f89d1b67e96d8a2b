//! The circuit of an instruction, and whether what a channel shows agrees with it.
//!
//! - Circuits of instructions: where a channel's word is one of a row, and what the row does with what the channel
//!   shows.
//! - Agreement of what a channel shows with an effect, as a node of a net.
#![tactic(auto)]

mod agree;
mod byte;
mod effect;
mod steps;
mod test;

pub use agree::agreement;
pub use effect::{EffectNodes, circuit};
