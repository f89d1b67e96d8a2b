//! What a Verilog source means: values of expressions, and the maps of names to numbers that its items allow.
#![tactic(auto)]

mod const_fault;
mod const_number;
mod constant_of;
mod cut;
mod driver;
mod earliest;
mod env;
mod evaluate;
mod first_fault;
mod flat;
mod join;
mod params;
mod select;
mod settle;
mod shared;
mod wide;
pub mod widths;
mod words;

pub use const_fault::ConstFault;
pub use const_number::Const;
pub use constant_of::constant;
pub use driver::{Driver, DriverKind, Start};
pub use env::Env;
pub use evaluate::value;
pub use flat::Flat;
pub use params::Params;
pub use settle::settled;
