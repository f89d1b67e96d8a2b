//! Steps of a refutation in the LRAT format, and a checker that accepts exactly those that refute a formula.
#![tactic(auto)]

mod checker;
mod code;
mod held;
mod ids;
mod lrat_fault;
mod lrat_read;
mod lrat_write;
mod marks;
mod pack;
mod ranks;
mod reading;
mod room;
mod shared;
mod sorted;
mod step;
mod store;
mod true_set;

pub use checker::verify;
pub use code::{code_of, flip, lit_of};
pub use lrat_fault::LratFault;
pub use lrat_read::read_lrat;
pub use lrat_write::lrat;
pub use reading::Reading;
pub use step::{Refuted, Step, StepFault};
pub use store::Store;
