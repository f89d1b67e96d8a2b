//! When a net is that of a design: definitions and laws.
//!
//! - What it means that a net is that of a design: definitions, and the law that their runs are one, without code.
//! - When a net that is built in steps is that of the design: definitions, and the law, without code.
//! - Inputs, registers and memories of a net as bits of a design's names: definitions, and the law that they are what
//!   is free in a map, without code.
//! - Registers and memories that have in the next cycle the numbers of a map: definitions, and a law, without code.
//! - That the names of a lowered net can be printed: laws, without code.
#![tactic(auto)]

pub mod edge_law;
pub mod evals_law;
pub mod graphic_law;
pub mod lowered_law;
pub mod named_law;
