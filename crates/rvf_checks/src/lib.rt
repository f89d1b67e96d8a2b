//! The questions of a case, answered and reported.
//!
//! - What a question comes to by what is loaded of its text, and how many come to what.
//! - What the checks of a case come to in runs of every length, in the words of `induct`.
//! - What is delivered of questions, in the words of `run`, `bench`, `cover` and `zb`.
#![tactic(auto)]

mod answering;
mod check;
mod checks;
mod counts;
mod failing;
mod head;
mod last;
mod length_counts;
mod length_files;
mod length_job;
mod length_lines;
mod lengths;
mod lines;
mod shared;
mod splitting;
mod wording;

pub use checks::Checks;
pub use counts::Counts;
pub use length_counts::LengthCounts;
pub use lengths::Lengths;
pub use splitting::Splitting;
pub use wording::Wording;
