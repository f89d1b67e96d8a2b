//! What a question of a design comes to, with its texts, and what that says of the source.
//!
//! - From a net and a question to what the question of its design comes to, with the texts that say so.
//! - The notes of a certificate, and the lines that they are in a clause file.
//! - What a check of one cycle comes to by induction, with its texts.
//! - That a judgement on a design without hierarchy is one on the design that the source writes: laws, without code.
#![tactic(auto)]

mod cell;
mod choice;
mod dump;
mod fields;
mod inducting;
mod induction;
mod judged;
mod judging;
mod line;
mod notes;
mod shared;
pub mod sources_law;
mod texts;

pub use choice::choice_notes;
pub use inducting::induct;
pub use induction::Induction;
pub use judged::{CertificateTexts, Judged};
pub use judging::judge;
