//! Where a design becomes too large.
//!
//! - The node, or the name, of a step that is one too many: nodes in reading order, a node before its parts, and a
//!   loop's turns one behind the other.
//! - That a step has as many places of nodes as it has nodes: a law of the definitions, without code.
#![tactic(auto)]

mod blocks;
mod cursor;
mod exprs;
mod items;
pub mod law;
mod names;
mod steps;
mod stmts;
mod turns;

pub use law::each_node_has_a_place;
pub use steps::{block_place, given_place, header_place, item_place, port_place};
