//! Laws of a design without hierarchy and of the source that it is drawn from.
//!
//! - What a design and the one without hierarchy have in common: laws of the definitions, without code.
//! - What the parts of steps depend on, of the places where they stand: a law of the definitions, without code.
#![tactic(auto)]

pub mod placed_law;
pub mod same_law;
