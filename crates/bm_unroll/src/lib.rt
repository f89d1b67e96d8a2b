//! The runs of a net over several cycles as one net without registers and memories.
//!
//! - One cycle of a net as nodes of another net.
//! - The cycles of a net, one after the other, as nodes of another net.
//! - Frames: the runs of a net over several cycles as one net without registers and memories.
#![tactic(auto)]

mod copy;
mod cycles;
mod draft;
mod frames;
mod inputs;
mod limits;
mod memory;
mod next;
mod shrink;
mod starts;
mod state;
mod top;
mod walked;
mod words;

pub use frames::{Frames, Source};
pub use limits::is_within;
pub use top::unroll;
