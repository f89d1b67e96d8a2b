//! Statements executed over cells of nodes, and values at first.
//!
//! - What statements do to the cells of a design, by those that they are made of: laws of the definitions, without
//!   code.
//! - Expressions over the cells of a design, and where the bits of targets stand (IEEE 1364-2005, sections 4.2.1, 4.9.3
//!   and 5.2).
//! - Statements executed over the cells of a design (IEEE 1364-2005, clause 9).
//! - The numbers that the cells of a design begin with.
#![tactic(auto)]

mod assignment;
mod assumption;
mod context;
mod first;
mod labels;
mod layout;
mod number;
mod paths;
mod place;
mod start;
pub mod steps_law;
mod stmt;
mod target;
mod value;
mod word;
mod zeros;

pub use assignment::assign;
pub use first::first_numbers;
pub use layout::{Layout, places_of};
pub use stmt::execute;
