//! The outside, files and output, with a count of its faults: in memory, failing as it is told, and the system's own.
#![tactic(auto)]

mod calls;
mod event;
mod files;
mod journal;
mod mem_files;
mod mem_out;
mod out;
mod real_files;
mod real_out;
mod shared;
mod store;
mod sure_files;
mod sure_out;

pub use event::Event;
pub use files::{FileFault, Files};
pub use mem_files::MemFiles;
pub use mem_out::MemOut;
pub use out::{Out, OutFault};
pub use real_files::RealFiles;
pub use real_out::RealOut;
pub use sure_files::SureFiles;
pub use sure_out::SureOut;
