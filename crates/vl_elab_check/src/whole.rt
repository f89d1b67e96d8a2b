//! Whether modules are a design.
ghost use Rattle.std.specs.Prelude.{◌≡◌, ◌-◌, [], length, IfOk, All};
ghost use Rattle.vl_tree.specs.WellFormed.{IsModule};
ghost use Rattle.vl_mean.specs.Parts.{design};
ghost use Rattle.vl_elab_spec.specs.Refused as refused;
ghost use Rattle.vl_elab_spec.specs.Refused.{first_refused, or_later, state_bits, too_many_bits};
ghost use Rattle.vl_elab_names.specs.Table.{AreModules};
ghost use Rattle.vl_elab_check.specs.Judged as spec;

use crate::progress::{Source, Walk};
use crate::scopes::enter_top;
use crate::steps::head;
use crate::walk::walk_items;
use fv_text::{Memory, Text};
use std::alloc::Global;
use vl_elab_names::{ModulePath, ModuleTable, modules_twice};
use vl_elab_spec::{ElabFault, Totals};
use vl_tree::Module;

/// The walk from the top module on.
fn walk_top(
    alloc: Global,
    table: &ModuleTable,
    modules: &[Module],
    module: &Module,
) -> Result<Option<ElabFault>, Memory>
    requires { AreModules table.now modules.now }
    ensures { IfOk result (λ g. All IsModule modules.now → IsModule module.now
        → g ≡ first_refused modules.now spec.nothing
        (spec.top_steps (length modules.now - 1) modules.now module.now)) }
{
    let mut path = ModulePath::new(alloc);
    path.push(module.name.copied(alloc)?)?;
    let mut used = enter_top(alloc, module)?;
    let totals = Totals::new();
    let mut walk = Walk {
        alloc,
        path,
        totals,
    };
    let fault = head(&mut walk, module, &mut used)?;
    if fault.is_some() {
        return Ok(fault);
    }
    let source = Source {
        table,
        modules,
        fuel: modules.len().saturating_sub(1),
    };
    Ok(walk_items(
        &source,
        &mut walk,
        &mut used.inside,
        &mut used.here,
        module.items.as_slice(),
    )?)
}

fn judge_top(
    alloc: Global,
    table: &ModuleTable,
    modules: &[Module],
    top: &Module,
) -> Result<Option<ElabFault>, Memory>
    requires { AreModules table.now modules.now }
    ensures { IfOk result (λ g. All IsModule modules.now → IsModule top.now
        → g ≡ or_later (refused.modules_twice [] modules.now) (first_refused modules.now spec.nothing
        (spec.top_steps (length modules.now - 1) modules.now top.now))) }
{
    let twice = modules_twice(alloc, modules)?;
    if twice.is_some() {
        return Ok(twice);
    }
    Ok(walk_top(alloc, table, modules, top)?)
}

/// Why well formed modules are no design with this top module, but for the bits of its registers: that there is no such
/// module, that two have one name, or the first refused step of the walk. None exactly where there is no such reason;
/// then the bits of its registers alone can be too many.
pub fn judge(alloc: Global, modules: &[Module], top: &Text) -> Result<Option<ElabFault>, Memory>
    ensures fault { IfOk result (λ g. All IsModule modules.now → g ≡ spec.fault_of modules.now top.now) }
    ensures refusal { IfOk result (λ g. All IsModule modules.now → refused.refusal modules.now top.now
        ≡ or_later g (let ps = design modules.now top.now in too_many_bits (state_bits ps ps))) }
{
    let table = ModuleTable::new(alloc, modules)?;
    match table.find(modules, top) {
        None => Ok(Some(ElabFault::NoModule(top.copied(alloc)?))),
        Some(module) => Ok(judge_top(alloc, &table, modules, module)?),
    }
}
