//! Cells of declared names under numbers, and the bits of them that drivers read, change and set.
//!
//! - The cells of declared names under numbers, and the bits of them that selects take.
//! - The bits that expressions read and targets change, as runs of numbered cells.
#![tactic(auto)]

mod cell_run;
mod constant;
mod fixed;
mod mask;
mod numbering;
mod place;
mod reads;
mod runs;
mod taken;
mod targets;
pub mod uses_law;

pub use cell_run::CellRun;
pub use fixed::are_fixed;
pub use numbering::{Numbering, cell_count};
pub use reads::{expr_reads, labels_read};
pub use runs::bits_of;
pub use targets::{target_changes, target_reads, target_sets};
