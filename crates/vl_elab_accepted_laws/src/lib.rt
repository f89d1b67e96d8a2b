//! Laws of designs of which no step is refused.
//!
//! - What a design that isn't refused keeps: laws of the definitions, without code.
//! - That what isn't refused has a size: laws of the definitions, without code.
//! - That what isn't refused is known: laws of the definitions, without code.
//! - That names mean what they stand for: laws of the definitions, without code.
//! - That the parts of what isn't refused are known: laws of the definitions, without code.
//! - That each step of such a design is judged: a law of the definitions, without code.
//! - That no name is one whose own declaration is refused: laws of the definitions, without code.
//! - That full names can be printed: a law of the definitions, without code.
#![tactic(auto)]

pub mod clean_law;
pub mod judged_law;
pub mod known_law;
pub mod meant_law;
pub mod names_law;
pub mod parts_law;
pub mod sized_law;
pub mod sound_law;
