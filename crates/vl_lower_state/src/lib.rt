//! Registers and memories in the next cycle, and laws of the phases of lowering.
//!
//! - Bits of a node, in any order, as a node.
//! - Next nodes of registers, by the bits of cells that they are.
//! - Words of memories in the next cycle, by the cells that they are.
//! - Where a net has the sources of a design, and its cells have their numbers, each of its cycles begins with a map
//!   that names what is free in it: a definition and the law, without code.
//! - Of which cells registers and memories are, and that they get these cells of the next cycle: definitions and laws,
//!   without code.
//! - What registers and memories want of cells before they get them: laws, without code.
//! - What the phases of lowering promise one another, and what they make together: definitions, and a law, without
//!   code.
#![tactic(auto)]

pub mod begins_law;
mod bits;
pub mod held_law;
mod nexts;
pub mod phases_law;
pub mod ready_law;
mod words;

pub use nexts::{gather_all, set_nexts};
pub use words::store_words;
