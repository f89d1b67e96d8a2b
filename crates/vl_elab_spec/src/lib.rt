//! Where a design is refused and why, and how a walk goes through it: definitions and laws.
//!
//! - Where a design is refused, and why: definitions over the steps of its walk, without code.
//! - How much of a design was walked, and that steps are walked one behind the other.
//! - What is known to be a constant has its number, whatever else is found to be one.
//! - How a walk goes through items, blocks and modules: laws of the definitions, without code.
#![tactic(auto)]

mod elab_fault;
mod fixed_law;
pub mod order;
mod role;
mod totals;
pub mod unfold_law;
mod walked_law;

pub use elab_fault::{ElabFault, refusal_number};
pub use fixed_law::known_constants_stay;
pub use role::Role;
pub use totals::Totals;
pub use walked_law::steps_are_walked_in_order;
