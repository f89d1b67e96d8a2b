//! Unit propagation over the clauses of a search.
//!
//! - Unit propagation over watched literals: a clause that is false or forces a literal, or none is left, found from
//!   the literals that became true alone.
//! - Unit propagation over the clauses of a search: one that is false or forces a literal, by its place, found from the
//!   watched literals alone.
#![tactic(auto)]

mod laws;
mod lists;
mod look;
mod order;
mod propagation;
pub mod unit_scan;
mod visit;
mod watch;
mod watch_scan;
mod watches;

pub use laws::{kept_as_entries_come, kept_as_the_trail_is_cut};
pub use propagation::Propagation;
