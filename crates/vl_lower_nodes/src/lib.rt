//! Operators and selects of Verilog as nodes of a net.
//!
//! - The operators of Verilog as nodes of a net, by the nodes of their operands (IEEE 1364-2005, section 5).
//! - Bits, parts and words at an index, as nodes of a net (IEEE 1364-2005, sections 4.2.1, 4.2.2 and 4.9.3).
#![tactic(auto)]

mod cut;
mod operation;
mod place;
mod reduce;
mod select;
mod width;

pub use operation::{arithmetic, compared, shifted};
pub use place::address;
pub use reduce::reduced;
pub use select::{VaryingPlace, bit_at, part_at, part_by, part_from, place_from};
pub use width::{fit, is_some, negative, number};
