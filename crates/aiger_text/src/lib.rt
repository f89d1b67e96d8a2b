//! And-inverter graphs as texts in the ASCII format AIGER, without latches and with one output, both ways (Biere,
//! 2007).
#![tactic(auto)]

mod body;
mod build;
mod circles;
mod fault;
mod gate;
mod header;
mod inputs;
mod line;
mod number;
mod ranks;
mod read;
mod rows;
mod search;
#[cfg(test)]
mod tests;
mod wires;
mod write;

pub use fault::AagFault;
pub use read::read_aag;
pub use write::aag;
