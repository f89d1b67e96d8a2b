//! Monitors: the properties of checks as circuits over the retirements that a net shows.
//!
//! - What a check keeps of the channels of a port in each cycle.
//! - Properties of the retirement at a check's trigger and all others, over the words of what was kept of these.
//! - Monitors: the properties of checks as circuits over the retirements that a net shows.
#![tactic(auto)]

mod around;
mod earlier;
mod kept;
mod own;
mod stored;
mod watch;

pub use watch::monitor;
