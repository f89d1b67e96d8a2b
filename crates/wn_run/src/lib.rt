//! Runs of nets, and the part of a net that a cycle hands on to the next one.
//!
//! - Runs of nets, and what holds of values and runs of every net.
//! - The part of a net that a cycle hands on to the next one.
#![tactic(auto)]

mod named;
mod part;
mod run_law;

pub use part::early;
pub use run_law::{
    cycles_are_of_the_net, nodes_have_their_meaning, old_parts_of_runs_are_old_runs,
    values_depend_on_what_a_net_has,
};
