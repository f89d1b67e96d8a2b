//! Clause files in the DIMACS format, both ways.
#![tactic(auto)]

mod body;
mod fault;
mod header;
mod literal;
mod read;
mod shared;
mod write;

pub use fault::DimacsFault;
pub use read::read_dimacs;
pub use write::{dimacs, put_literals};
