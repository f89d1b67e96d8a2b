//! Memories of a net as one node a word.
#![tactic(auto)]

mod bits;
mod constant;
mod groups;
mod marks;
mod read;
mod whole;
mod write;

pub use read::read_after;
pub use whole::memory_of;
pub use write::write_all;
