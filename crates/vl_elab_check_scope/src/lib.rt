//! Which refusal of a scope's names, parameters, declarations, blocks and constructs is answered.
//!
//! - Names that stand twice in a scope.
//! - Where declarations, ports, assignments, blocks and generate constructs of a walk are refused.
//! - Where parameters are refused, over those that stand before them.
#![tactic(auto)]

mod blocks;
mod constructs;
mod declarations;
mod labels;
mod parameters;
mod ports;
mod twice;

pub use blocks::{always_fault, assign_fault, initial_block_fault};
pub use constructs::{if_fault, loop_fault};
pub use declarations::{declaration_fault, genvar_names_fault, integer_fault};
pub use labels::add_labels;
pub use parameters::{header_fault, parameters_fault};
pub use ports::port_step_fault;
