//! Laws of simple wrappers.
//!
//! - That elaboration refuses no simple wrapper: laws of the definitions, without code.
//! - That no text which comes to a simple wrapper is refused by elaboration: laws of the definitions, without code.
#![tactic(auto)]

pub mod elab_law;
pub mod text_law;
