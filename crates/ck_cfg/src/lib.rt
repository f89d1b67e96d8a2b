//! `checks.cfg`, the configuration of a run (documentation of riscv-formal, in this project's profile): what its lines
//! say, which checks they ask for, and which files they name.
#![tactic(auto)]

mod channels;
mod check;
mod config;
mod cycles;
mod depth;
mod digits;
mod fault;
mod files;
mod isa;
mod kind;
mod line;
mod list;
mod option;
mod read;
mod reader;
mod script;
mod section;
mod shared;
mod sort;
mod target;

pub use check::Check;
pub use config::{Config, Depth, KindPiece, Piece};
pub use fault::CfgFault;
pub use files::file_names;
pub use kind::CheckKind;
pub use list::checks;
pub use read::read_cfg;
