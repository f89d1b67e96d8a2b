//! Sets of names, and the names of scopes, of generate blocks and of modules.
//!
//! - Sets of names.
//! - The names that are explicitly declared in a scope, in order, by which its generate blocks are named.
//! - Names of generate blocks, and the paths of what is in blocks, in turns of generate loops and in instances.
//! - Modules by their names, and those that stand in one another.
#![tactic(auto)]

mod label_labels;
mod names;
mod path;
mod paths;
mod scope_names_labels;
mod set;
mod table;
mod twice;

pub use label_labels::block_name;
pub use names::ScopeNames;
pub use path::ModulePath;
pub use paths::{inside_path, turn_path};
pub use set::NameSet;
pub use table::ModuleTable;
pub use twice::modules_twice;
