//! The words of the command line: which subcommand they ask for, with its values.
#![tactic(auto)]

mod command;
mod line;
mod read;

pub use line::{Line, Options};
pub use read::read_words;
