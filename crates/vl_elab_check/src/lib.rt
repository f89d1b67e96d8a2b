//! The walk that finds the first refusal of modules.
//!
//! - Each step of a walk: where it is refused, by itself and for the size of the design with it.
//! - The walk through a design while it is judged: its first refused step, and with it whether modules are a design.
#![tactic(auto)]

mod bare;
mod conditions;
mod connections;
mod headers;
mod items;
mod passed;
mod ports;
mod progress;
mod scopes;
mod step;
mod steps;
mod turns;
mod walk;
mod whole;

pub use whole::judge;
