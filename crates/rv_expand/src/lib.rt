//! The words that compressed instructions stand for, as nodes of a net.
#![tactic(auto)]

mod assemble;
mod expand;
mod half;
mod operands;
mod place;
mod span;

pub use expand::expansion;
pub use operands::OperandNodes;
pub use place::{ImmediatePlace, Places, RegisterPlace};
pub use span::Span;
