//! Numbers of constants and bounds of ranges while a design is judged and written.
//!
//! - Numbers of expressions over constants, refused or not: of parameters, of genvars and of conditions.
//! - Declared ranges as a design is written: how many bits they have, and their bounds.
//! - When scopes can be opened as a design is written: definitions, with a law of them and without code.
#![tactic(auto)]

mod bounds;
mod given;
mod number;
pub mod openable_law;
mod operation;
mod parameter;
mod ranges;

pub use given::{Given, Value, given_by, judged_by};
pub use number::{genvar_value, is_true_in, own_bound, value_in_turn};
pub use parameter::parameter_value;
pub use ranges::{Extent, extent_in, words_in};
