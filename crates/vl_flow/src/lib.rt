//! An order of the drivers of a design and its weight, or why it has none.
//!
//! - Designs without hierarchy whose drivers stand in an order: for each choice of what is free in a cycle, one map of
//!   all names holds.
//! - The order and the weight of a design without hierarchy, or why its drivers have no order.
#![tactic(auto)]

mod analysis;
mod drivers;
mod fault;
mod later;
mod one_map;
mod ordered;
mod ordering;
mod weighed;

pub use fault::FlowFault;
pub use one_map::each_choice_has_one_map;
pub use ordered::Ordered;
pub use ordering::order;
pub use weighed::weight;
