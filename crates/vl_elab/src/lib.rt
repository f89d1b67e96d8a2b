//! The design without hierarchy that modules are, or why they are none.
//!
//! - How many bits of registers a design without hierarchy has.
//! - Modules as a design without hierarchy, or why they are none.
#![tactic(auto)]

mod count;
mod reason;
pub mod state_law;
mod whole;

pub use reason::Reason;
pub use whole::elaborate;
