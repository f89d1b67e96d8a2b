//! The whole source.
ghost use Rattle.std.specs.Prelude.{◌≡◌, [], OnOk};
ghost use Rattle.vl_mean.specs.Parts.{design};
ghost use Rattle.vl_mean.specs.Runs.{Each};
ghost use Rattle.vl_mean.specs.Walk.{walk};
ghost use Rattle.vl_mean_flat.specs.StepScopes.{StepScopes};
ghost use Rattle.vl_elab_names.specs.Table.{AreModules};
ghost use Rattle.vl_elab_const.specs.Openable.{AreOpenable};
ghost use Rattle.vl_elab_emit.specs.Behind.{MayStandBehind, StandBehind, placed_design};
ghost use Rattle.vl_elab_flatten.specs.Ready.{IsReady, Writes, design_seen};

use crate::modules::open_module;
use crate::source::Source;
use crate::walk::write_opened;
use fv_text::{Memory, Text};
use std::alloc::Global;
use vl_elab_const::Given;
use vl_elab_decls::Inputs;
use vl_elab_draft::{Draft, Path};
use vl_elab_names::ModuleTable;
use vl_tree::Module;

/// Writes the top module, under no path.
fn write_top(
    alloc: Global,
    table: &ModuleTable,
    modules: &[Module],
    top: &Text,
    draft: &mut Draft,
) -> Result<(), Memory>
    requires table { AreModules table.now modules.now }
    requires ready { IsReady draft.old (design_seen modules.now top.now) }
    ensures { OnOk result (Writes draft.old (design_seen modules.now top.now) draft.new) }
{
    let Some(module) = table.find(modules, top) else {
        return Ok(());
    };
    let nothing = Given::new(alloc);
    let opened = open_module(alloc, module, &Inputs::Top, &nothing, Path::top(alloc))?;
    let depth = modules.len().saturating_sub(1);
    let source = Source {
        alloc,
        table,
        modules,
        depth,
    };
    write_opened(&source, module, opened, draft)
}

/// Writes the parts of the design of these modules with this top module behind what stands, each in order (IEEE
/// 1364-2005, section 12): with full names, with numbers in place of constants, and each driver in its place. The top
/// module's name stays out of full names.
pub fn write_design(
    alloc: Global,
    modules: &[Module],
    top: &Text,
    draft: &mut Draft,
) -> Result<(), Memory>
    requires openable { Each (StepScopes AreOpenable) (walk modules.now top.now) }
    requires may { MayStandBehind draft.old (design modules.now top.now) }
    ensures { OnOk result (StandBehind draft.old (placed_design modules.now top.now) draft.new) }
{
    let table = ModuleTable::new(alloc, modules)?;
    write_top(alloc, &table, modules, top, draft)
}
