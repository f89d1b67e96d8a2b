//! The two halves of an induction on the runs of a net, as frames, and what they show of runs of every length.
//!
//! - The base: whether a run up to a cycle has the bad node other than 0 in a cycle from 1 on.
//! - The step: whether cycles from any state, without reset, have it so in the last one first, and their trace.
//! - Where neither is there, no run of any length has it so in a cycle from 1 on.
//! - A net once more, with other starts, without its reset, or without its assumptions: the builders of nets only
//!   add, so it is built anew, first a node for each input and each register, then a node for each node of the net,
//!   whose number is that of the old one and as many more as these.
#![tactic(auto)]

mod anywhere;
mod begin;
mod behind;
mod fails;
mod how;
mod law;
mod moved;
mod past;
mod shared;
mod start;
mod top;
mod trace;

pub use anywhere::step;
pub use how::Rebuild;
pub use law::{
    a_property_of_each_length, no_run_of_any_length_is_bad, parts_of_runs_are_step_runs,
};
pub use start::base;
pub use top::{offset_of, rebuilt};
pub use trace::step_trace;
