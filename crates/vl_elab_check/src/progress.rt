//! The source through which a walk goes, and how far it has come.

use std::alloc::Global;
use vl_elab_names::{ModulePath, ModuleTable};
use vl_elab_spec::Totals;
use vl_tree::Module;

/// The modules of a source, which instances name.
#[derive(Drop)]
pub(crate) struct Source<'a> {
    /// The places of the modules by their names.
    pub(crate) table: &'a ModuleTable,
    pub(crate) modules: &'a [Module],
    /// How many modules may stand in one another below the walk.
    pub(crate) fuel: usize,
}

/// How far a walk has come.
#[derive(Drop)]
pub(crate) struct Walk {
    pub(crate) alloc: Global,
    /// The modules that it stands in, the outermost first.
    pub(crate) path: ModulePath,
    /// The nodes and names of what it has passed.
    pub(crate) totals: Totals,
}
