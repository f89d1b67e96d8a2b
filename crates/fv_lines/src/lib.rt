//! Texts as lines, words and numbers, and their parts before and behind a mark.
#![tactic(auto)]

mod cuts;
mod lines;
mod numbers;
mod words;

pub use cuts::{before, behind, cut_at};
pub use lines::{next_line, next_place};
pub use numbers::{MOST, natural, number_up_to};
pub use words::{is_blank, next_word};
