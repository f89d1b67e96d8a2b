//! Cases of designs: what is answered of modules, of their drivers, of the net that they are lowered to, and of texts
//! from their bytes to their net. This crate says what the crates under it answer, and promises nothing of its own.
#![tactic(auto)]

pub mod elab;
mod elab_refusal;
pub mod flow;
mod flow_refusal;
pub mod load;
mod load_shown;
pub mod lower;
mod shown;
mod texts;
mod values;
