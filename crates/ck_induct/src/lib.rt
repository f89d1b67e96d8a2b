//! Checks that look at one cycle, in runs of every length.
//!
//! - The property of such a check is one of the map of a cycle, which a node of the net tells: laws, without code.
//! - Step runs of a net are maps of its design from any one on, and the other way: laws, without code.
//! - What the two halves of an induction come to by clauses and a search, and the traces that their witnesses tell.
//! - Where both are refuted, no run of the design fails in a cycle from 1 on: a law, without code.
#![tactic(auto)]

mod first;
mod frames;
mod halves;
mod kind;
mod law;
mod tracing;

pub use halves::{decide_base, decide_step};
pub use kind::{in_cycle, is_of_one_cycle};
pub use law::{
    halves_have_their_clauses, monitors_tell_lack, no_run_of_any_length_fails,
    none_of_the_design_fails, properties_are_of_maps, refuted_halves_have_none,
    step_runs_are_allowed, step_runs_are_evaluated, traces_are_the_designs, traces_have_dumps,
};
pub use tracing::{failing_trace, stepping_trace};
