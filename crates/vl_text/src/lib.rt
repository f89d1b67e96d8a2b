//! From the bytes of Verilog texts to their tree, by all parts in their order.
#![tactic(auto)]

mod assumptions;
mod fault;
mod lexing;
mod macros;
mod reading;
mod shared;
mod text;
mod top_module;

pub use fault::TextFault;
pub use macros::{Core, Retirements, predefined};
pub use reading::read_source;
pub use text::{Assumption, SourceText};
