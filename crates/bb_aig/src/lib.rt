//! And-inverter graphs, gates over them, words of literals, and laws of bits.
//!
//! - And-inverter graphs: gates of two literals over inputs.
//! - Lists of bits, the lowest first, and what operators make of their numbers: laws alone.
//! - Gates over an and-inverter graph, each pair of literals once, and words of literals.
#![tactic(auto)]

mod aig;
mod bits_law;
mod gate;
mod graph;
mod node;
mod shared;
mod table;

pub use aig::Aig;
pub use bits_law::bits_are_numbers;
pub use gate::{Sum, add_three, differ, either, mux};
pub use graph::Gates;
pub use node::{AigNode, Lit, complement};
