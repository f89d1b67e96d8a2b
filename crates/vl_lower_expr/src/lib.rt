//! Expressions of a design without hierarchy as nodes of a net, by the nodes of the names in them (IEEE 1364-2005,
//! section 5).
#![tactic(auto)]

mod bindings;
mod constants;
mod copies;
mod expr;
mod memory;
mod names;
mod place;
mod range;
mod word_type;

pub use bindings::Bindings;
pub use constants::constant;
pub use expr::{own, term, truth};
pub use names::found;
pub use place::Place;
pub use range::{BitRange, count_of, range_of};
pub use word_type::WordType;
