//! What questions, notes and traces of a net say of its design.
//!
//! - What is found in the runs of a net, of those of the design that it is made from: definitions and laws, without
//!   code.
//! - Notes of certificates, by which their clauses say what they are of, and the law that they say it exactly.
//! - The trace of a run of a design, and the law that a net's traces are those of its design: definitions and laws,
//!   without code.
//! - That the names of a design's traces differ: a law of the definitions, without code.
#![tactic(auto)]

pub mod design_law;
pub mod names_law;
mod note;
mod notes_law;
pub mod traces_law;

pub use note::{Note, NoteLiteral};
pub use notes_law::{certificates_are_tight, notes_are_in_form};
