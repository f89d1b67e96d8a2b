//! How many nodes and names the parts of a design are.
//!
//! - How many nodes and names the steps of a walk are, up to `2^64 - 1`.
//! - How many nodes and names an item of a walk adds, up to `2^64 - 1`.
#![tactic(auto)]

mod bounds;
mod count_items;
mod exprs;
mod names;
mod stmts;
mod totals_items;
mod turns;

pub use count_items::{optional_nodes, parameter_nodes, range_nodes};
pub use exprs::{expr_nodes, target_nodes};
pub use names::one_name;
pub use stmts::stmt_nodes;
pub use totals_items::{Added, item_added};
