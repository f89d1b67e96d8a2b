//! The preprocessor of Verilog texts: conditionals and macros (IEEE 1364-2005, clause 19).
#![tactic(auto)]

mod directive;
mod fault;
mod law;
mod macros;
mod opens;
mod prepared;
mod quiet;
mod reader;
mod reading;
mod refusal;
mod scope;
mod shared;
mod steps;

pub use fault::PrepFault;
pub use law::groups_decide;
pub use macros::Macros;
pub use reader::prep;
pub use refusal::is_sooner;
