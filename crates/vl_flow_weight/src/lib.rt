//! What a design without hierarchy weighs.
//!
//! - About how many gates operations take, by the number of bits that they have.
//! - The weight of a design without hierarchy.
#![tactic(auto)]

mod access;
mod assigned;
mod branch;
mod design;
mod expr;
mod gates;
mod labels;
mod names;
mod operations;
mod size;
mod stmt;
mod target;
mod weighed;

pub use design::weight_of;
