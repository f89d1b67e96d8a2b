//! Which drivers read bits that others assign, and an order of drivers or a loop of them.
//!
//! - Which drivers read bits that others assign, as a graph.
//! - Bits of several sets: those that some have, those that two have, and the groups of cells of which a set has bits.
//! - The names of targets, as sets.
//! - The order of a design's drivers, or a loop of them.
#![tactic(auto)]

mod buckets;
mod crossing;
mod edge;
mod footprint;
mod found;
mod loops;
mod names;
mod order_groups;
mod reads_groups;
mod rows;
mod sequence;
mod targets;
mod union;
mod visit;

pub use crossing::{Crossing, crossing_of};
pub use footprint::Footprint;
pub use found::Found;
pub use names::named;
pub use order_groups::groups_of;
pub use reads_groups::Groups;
pub use sequence::sequence_of;
pub use targets::target_names;
pub use union::union_of;
pub use visit::Visit;
