//! The top call: from the words of the command line, over files and an output that may fail, to a status.
#![tactic(auto)]

mod bench_files;
mod benching;
mod certificate;
mod certifying;
mod checking;
mod encoding;
mod exporting;
pub mod insn_law;
mod lengths;
mod listing;
pub mod pass_law;
pub mod proved_law;
mod refusing;
mod report;
mod reporting;
mod shared;
mod terms;
mod top;
mod work;

pub use rvf_report::Status;
pub use top::{run, run_gated};
