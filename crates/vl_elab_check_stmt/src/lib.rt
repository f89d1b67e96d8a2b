//! Which refusal of a target, an assignment or a statement is answered, over what its names mean.
#![tactic(auto)]

mod contexts;
mod outputs;
mod stmts;
mod targets;

pub use contexts::assigned_in;
pub use outputs::target_of;
pub use stmts::{initial_fault, stmt_fault};
pub use targets::{Assigning, assignment_fault, declared_value_fault, target_fault};
