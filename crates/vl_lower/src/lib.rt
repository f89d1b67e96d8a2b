//! The net of an ordered design, with its names.
//!
//! - The inputs, registers and memories of a design without hierarchy, and a node for each of its cells.
//! - The drivers of a design settled in the cells of a net, and its clocked blocks at the clock's edge.
//! - The registers of the kept bits of one cell, and the node that has the cell's number.
//! - The entries of a design's names in a net: its code, and the law that they are the listed ones.
//! - The phases of lowering over a net with its sources: drivers settled, clocked blocks at the edge, and registers and
//!   memories that get their cells of the next cycle.
//! - What is kept of each cell of a design: the bits that no combinational block may assign, and what they begin with.
//! - Lowering: from an ordered design to the net of words whose evaluations are the maps that the design allows.
#![tactic(auto)]

mod cells;
mod close;
mod declare;
mod handed;
mod keeping;
mod keeps;
mod list;
pub mod listed_law;
mod name;
mod node;
mod phase;
mod settle;
mod sources;
mod stored;
mod tick;
mod whole;
mod words;

pub use phase::Phase;
pub use whole::{Lowered, lower};
