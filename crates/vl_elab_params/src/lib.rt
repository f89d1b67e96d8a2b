//! The parameters of a scope while a design is judged.
//!
//! - Parameters of a scope, as they are entered while a design is judged: the names that stand behind them, and the law
//!   that those which are entered one behind the other mean what the definitions say.
//! - Scopes, as they are entered while a design is judged, as far as their parameters.
//! - Parameters of scopes that stand before a step of the walk, and those that don't.
#![tactic(auto)]

mod behind;
mod extents;
mod known;
mod names;
mod param_law;
mod parameters;
mod pending;
mod reached;
mod shadow_names;

pub use extents::{Extent, known_extent};
pub use param_law::entered_parameters_are_those_defined;
pub use parameters::enter_parameters;
pub use reached::Reached;
pub use shadow_names::shadows;
