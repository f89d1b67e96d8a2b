//! Whether the properties of checks hold, on lists of retirements.
#![tactic(auto)]

mod history;
mod order_law;
mod own;
mod property;

pub use order_law::one_channel_looks_back;
pub use property::holds;
