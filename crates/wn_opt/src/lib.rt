//! Nets in which equal nodes are one, and the part of a net on which some nodes rest.
//!
//! - Builders that answer one number for equal nodes, fold constants, and fold operators of equal operands.
//! - The part of a net on which some nodes rest, and such a part grown by what one more node rests on.
//! - A net without registers and memories once more, with equal nodes once, and the inputs alone that are read.
#![tactic(auto)]

mod behind;
mod build;
mod copy;
mod fold;
mod frame;
mod hashed;
mod join;
mod kept;
mod known;
mod law;
mod marks;
mod narrow;
mod once;
mod operands;
mod operators;
mod parts;
mod rebuild;
mod share;
mod table;
mod top;

pub use behind::cone_behind;
pub use copy::place;
pub use hashed::Hashed;
pub use law::equal_calls_answer_one_number;
pub use rebuild::{Compacted, compact, places_at};
pub use top::cone;
