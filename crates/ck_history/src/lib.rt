//! Registers that show what retired in earlier cycles, and searches among these entries.
//!
//! - Nodes of one bit that tell whether something is so.
//! - Lines of registers, which show in a cycle what a run retired in the cycles before it.
//! - Searches among the entries of a history, as nodes of a net.
#![tactic(auto)]

mod compare;
mod entry;
mod line;
mod search;
mod sought;
mod test;

pub use entry::{EntryNodes, pack, unpack};
pub use line::history;
pub use search::first_agrees;
pub use sought::{KeyTest, SmallTest, Sought, WordTest};
pub use test::{both, either, is_number, is_same, turned};
