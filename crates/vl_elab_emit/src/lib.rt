//! Parts of items, ports and connections, and values at first, written into a design without hierarchy.
//!
//! - What begins with a value in a design without hierarchy: how many bits it has, and which value that is.
//! - The parts of items, of ports and of connections, written into a design without hierarchy: each behind what is
//!   written before, with full names, and with numbers in place of constants.
#![tactic(auto)]

mod bits;
mod blocks;
mod constants;
mod declaring;
mod items;
mod joining;
pub mod start_law;
mod starting;
mod values;

pub use blocks::write_block;
pub use declaring::write_declarations;
pub use items::{items_have_their_parts, write_item};
pub use joining::{is_clock, write_joined};
pub use values::write_optional_value;
