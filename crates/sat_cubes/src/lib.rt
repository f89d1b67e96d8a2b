//! One formula over many workers: it is split into cubes, each cube's rest is searched by itself, and the cubes'
//! refutations are joined into one.
//!
//! - What is left of a formula under a cube.
//! - Which variables are split, and the cubes of these.
//! - Steps that refute a cube's rest, lifted to the formula, and joined with those of the other cubes.
#![tactic(auto)]

mod book;
mod counting;
mod cube;
mod cube_set;
mod id_map;
mod joining;
mod lifting;
mod numbering;
mod outcome;
mod part;
mod restricting;
mod solving;
mod splitting;
mod values;

pub use restricting::restrict;
pub use solving::solve_cubes;
