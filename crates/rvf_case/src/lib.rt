//! What stands before the questions of a configuration are answered: the configuration, its files, and what is loaded
//! of each of its texts.
#![tactic(auto)]

mod asked;
mod asking;
mod case;
mod loading;
mod preparing;
mod reading;
mod refusal;
mod same;
mod shared;
mod steps;

pub use asking::Asking;
pub use case::{Case, LoadedText};
pub use preparing::{Request, prepare};
pub use reading::read_config;
pub use refusal::Refusal;
pub use rvf_load::LoadFault;
pub use steps::Steps;
