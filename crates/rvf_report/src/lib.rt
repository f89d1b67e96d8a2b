//! Jobs answered in batches and delivered in their order, and the line of each refusal.
//!
//! - What a run delivers: files and lines; the answers of jobs, delivered in their order. No reading.
//! - The line of each refusal: its part, its number, its place and its other values.
#![tactic(auto)]

mod batch;
mod config;
mod delivering;
mod delivery;
mod inquiry;
mod line;
mod part;
mod progress;
mod reporting;
mod says;
mod shared;
mod status;
mod word;

pub use delivering::deliver;
pub use delivery::Delivery;
pub use inquiry::Inquiry;
pub use line::refusal_line;
pub use reporting::conclude;
pub use status::Status;
pub use word::{put_end, put_word};
