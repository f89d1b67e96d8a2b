//! What can be reached: the targets of a list of checks, and the node of a target.
#![tactic(auto)]

mod laws;
mod list;
mod reached;
mod shared;
mod target;

pub use laws::{each_check_has_its_target, targets_are_lawful};
pub use list::targets;
pub use reached::goal;
pub use target::Target;
