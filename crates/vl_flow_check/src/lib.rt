//! Which refusals of what drivers assign are answered.
//!
//! - Refusals of drivers by what they assign: latches, shared and mixed assignments.
//! - The first bit that two drivers have.
#![tactic(auto)]

mod doubled;
mod earliest;
mod first;
mod layout;
mod name;
mod names;
mod nets;
mod overlap;
mod refusals;
mod rows;
mod share;
mod target;
mod vectors;
mod which;

pub use doubled::two_drivers;
pub use layout::{Layout, Names, Span, bits_of_names};
pub use nets::undriven;
pub use refusals::{blocking_shared, latch, mixed};
