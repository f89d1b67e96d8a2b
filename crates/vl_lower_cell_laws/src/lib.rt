//! Laws of cells, entries and names while a design is lowered.
//!
//! - Registers for the bits of a cell that are kept over the clock's edge: definitions and laws.
//! - What the clocked blocks of a design store for the next cycle: a law, without code.
//! - What the drivers of a design leave for the next cycle and assume, settled in their order: laws, without code.
//! - Cells in which drivers are settled one after the other, and then clocked blocks act: definitions and laws, without
//!   code.
//! - The entries of a design's names over the nodes of its cells: definitions and laws, without code.
//! - The inputs, registers and memories that the declared names of a design come to, and the numbers of its cells at
//!   the beginning of a cycle: definitions and laws, without code.
//! - How many inputs, registers and words of memories a design without hierarchy comes to: a law, without code.
//! - Names of a net over the inputs, registers and memories of a design, and entries for its cells: laws, without code.
#![tactic(auto)]

pub mod cycle_law;
pub mod entries_law;
pub mod few_law;
mod keep;
pub mod keeps_law;
pub mod settled_law;
pub mod shown_law;
pub mod sources_law;
pub mod ticked_law;

pub use keep::Keep;
