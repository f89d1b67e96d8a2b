//! The source that is written as a design without hierarchy.

use std::alloc::Global;
use vl_elab_names::ModuleTable;
use vl_tree::Module;

/// The modules of a source, which instances name.
#[derive(Drop)]
pub(crate) struct Source<'a> {
    pub(crate) alloc: Global,
    /// The places of the modules by their names.
    pub(crate) table: &'a ModuleTable,
    pub(crate) modules: &'a [Module],
    /// How deep instances may stand in one another below the walk.
    pub(crate) depth: usize,
}
