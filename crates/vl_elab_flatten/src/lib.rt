//! A source that isn't refused, written as a design without hierarchy.
//!
//! - Scopes of modules, of blocks and of turns of generate loops, as they are opened and left while a design is written
//!   without hierarchy.
//! - The ports of a module, and what an instance joins to them, written into a design without hierarchy.
//! - The parts of a design, written into a design without hierarchy: instances are unfolded, each turn of a generate
//!   loop is taken, and of an `if` the chosen block.
//! - A source that isn't refused, written as a design without hierarchy.
#![tactic(auto)]

mod blocks;
mod connections;
mod constants;
mod declared;
mod filling;
mod here;
mod inputs;
mod instances;
mod modules;
mod paths;
mod source;
mod top;
mod turns;
mod walk;
pub mod whole_design;

pub use here::Around;
