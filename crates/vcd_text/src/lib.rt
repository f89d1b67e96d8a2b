//! The trace that a value-change dump says, or the first faulty line.
#![tactic(auto)]

mod fault;
mod name_line;
mod read;
mod reader;
mod shared;
mod words;

pub use fault::VcdFault;
pub use read::read_vcd;
