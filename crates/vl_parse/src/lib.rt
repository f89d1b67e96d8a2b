//! Tokens read as items, modules and a whole source.
//!
//! - Lists of the items of a module while they are read.
//! - Reading tokens as an item of a module that has no items in it (IEEE 1364-2005, section A.1.4).
//! - Reading tokens as the items of a module (IEEE 1364-2005, sections A.1.4 and A.4.2).
//! - The trees of Verilog tokens (IEEE 1364-2005, annex A, cut to this project's subset).
#![tactic(auto)]

mod fault;
mod item;
mod outside;
mod parser;
mod plain;
mod reading;
mod shared;
mod source;

pub use fault::ParseFault;
pub use parser::parse;
