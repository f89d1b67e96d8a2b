//! Bits written to cells of nodes where a path is taken, and the cells of a design in the midst of a block.
//!
//! - Bits of a vector replaced by those of another node.
//! - Cells of nodes, and bits of them written where a path is taken.
//! - The cells of a design in the midst of a block.
#![tactic(auto)]

mod assign;
mod begin;
mod bits;
mod change;
mod frame;
mod path;
mod puts_law;
mod slot;
mod spread;
mod track;
mod tracking;
mod write;

pub use assign::assign_slots;
pub use begin::{copy_tracks, tracks_over};
pub use bits::put;
pub use change::Change;
pub use frame::Frame;
pub use path::{path_unless, path_where};
pub use puts_law::puts_are_assignments;
pub use slot::{Holder, Slot};
pub use spread::{BitPlace, Spread};
pub use track::Track;
