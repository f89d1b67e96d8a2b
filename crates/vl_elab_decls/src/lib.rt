//! What items and ports declare, and scopes as they are entered and left while a design is judged.
//!
//! - The ports, nets and variables of a scope with their shapes, as far as these are known while a design is judged.
//! - What ports and items declare as a design is written: nets and variables with their shapes.
//! - Scopes of modules and blocks, as they are entered and left while a design is judged.
#![tactic(auto)]

mod clocks;
mod decls_forms;
mod decls_items;
mod decls_ports;
mod hidden;
mod inputs;
mod objects;
mod scopes;
mod shape_forms;
mod shape_items;
mod shape_ports;
mod turns;
mod words;

pub use decls_items::{declared_count, decls_of_items};
pub use decls_ports::decls_of_ports;
pub use inputs::Inputs;
pub use scopes::{Inside, enter_block, enter_module, leave_scope};
pub use turns::turns_stand;
pub use words::class_of_attributes;
