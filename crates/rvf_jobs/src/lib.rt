//! Batches of jobs that run beside each other, where threads can be made.
#![tactic(auto)]

mod batch;
mod gate;
mod job;
mod shared;

pub use batch::run_jobs;
pub use gate::{Gate, OpenGate};
pub use job::Job;
