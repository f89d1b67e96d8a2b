//! The tokens of a Verilog text, with their places.
#![tactic(auto)]

mod class;
mod fault;
mod format;
mod lexer;
mod meaning;
mod number;
mod piece;
mod place;
mod shared;
mod sign;
mod sort;

pub use fault::LexFault;
pub use lexer::lex;
