//! Walks over graphs: an order in which each node stands behind those that it leads to, or a circle.
#![tactic(auto)]

mod circle;
mod law;
mod state;
mod steps;
mod walked;
mod within;

pub use law::{an_order_has_no_circle, circle_from};
pub use walked::{Walked, walk};
pub use within::is_within;
