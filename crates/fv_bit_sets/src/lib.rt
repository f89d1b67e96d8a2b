//! Sets of bits of numbered cells: vectors, or words of memories.
#![tactic(auto)]

mod bits;
mod how;
mod merge;
mod put;
mod run;
mod step;

pub use bits::Bits;
