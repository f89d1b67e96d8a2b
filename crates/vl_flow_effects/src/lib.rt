//! What drivers read, may assign and surely assign, as sets of bits.
//!
//! - What drivers read, assign and leave unassigned, as sets of bits of numbered cells.
//! - The names that blocks assign, each kind of assignment by itself.
//! - The bits of numbered cells that combinational blocks may assign, and those with a value at first.
#![tactic(auto)]

mod arms;
mod assigned;
mod bits;
mod driven;
mod effect;
mod joined;
mod masks;
mod started;
mod stmt;
mod uses;

pub use assigned::Assigned;
pub use bits::changes_of;
pub use driven::driven_masks;
pub use started::started_masks;
pub use uses::{Uses, uses_of};
