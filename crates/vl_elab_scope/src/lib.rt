//! What names mean in scopes while a design is judged.
//!
//! - What names mean in scopes while a design is judged, and what expressions over such names are.
//! - What is refused depends on what each name means alone, and not on how scopes are kept.
#![tactic(auto)]

mod alike_law;
pub mod blocks;
mod constants;
mod context;
mod copies;
mod divisions;
mod level;
mod meaning;
mod names;
mod read;
mod settle;
mod tables;
mod texts;

pub use alike_law::{
    declarations_are_refused_alike, expressions_are_refused_alike, instances_are_refused_alike,
    meanings_decide_declarations, statements_are_refused_alike,
};
pub use constants::{constant_of, number_of};
pub use context::context_of;
pub use level::Level;
pub use meaning::{Meaning, Object};
pub use names::Names;
pub use read::{own_zero_divisor_of, value_of, zero_divisor_of};
pub use settle::known_expr;
