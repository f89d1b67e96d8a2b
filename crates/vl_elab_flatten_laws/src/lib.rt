//! Laws of what is drawn from a design that isn't refused.
//!
//! - That what begins with a value, in a design that isn't refused, may be written so: a law, without code.
//! - What a whole design that isn't refused keeps: laws of the definitions, without code.
//! - What is drawn from a design that isn't refused keeps: laws of the definitions, without code.
//! - That what is drawn from a design that isn't refused is no larger: laws of the definitions, without code.
//! - That what is drawn from a design that isn't refused is lawful: a law of the definitions, without code.
//! - That the parts of a design which isn't refused may be written: a law of the definitions, without code.
//! - That the scopes of a design which isn't refused can be opened: a law of the definitions, without code.
#![tactic(auto)]

pub mod begun_law;
pub mod behind_law;
pub mod counted_law;
pub mod design_law;
pub mod kept_law;
pub mod lawful_law;
pub mod opens_law;
