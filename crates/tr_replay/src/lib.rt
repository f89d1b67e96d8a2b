//! The trace of a run of a net: what each name of a design has in each cycle.
#![tactic(auto)]

mod chosen;
mod names;
mod run;
mod shared;
mod start;
mod values;

pub use chosen::Chosen;
pub use run::replay;
