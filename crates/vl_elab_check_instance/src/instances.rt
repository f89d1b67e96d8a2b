//! Instances by what they name.
ghost use Rattle.std.specs.Prelude.{◌≡◌, ◌||◌, not, IfOk};
ghost use Rattle.vl_mean.specs.Walk.{Place};
ghost use Rattle.vl_elab_spec.specs.declared.elab_fault.ElabFault.TheVariants as f;
ghost use Rattle.vl_elab_spec.specs.Expressions.{refused_if};
ghost use Rattle.vl_elab_spec.specs.Items.{instance_refusals};
ghost use Rattle.vl_elab_spec.specs.Refused.{lowest};
ghost use Rattle.vl_elab_names.specs.Known.{AreNames};
ghost use Rattle.vl_elab_names.specs.Table.{AreModules};
ghost use Rattle.vl_elab_check_instance.specs.Instances as spec;

use fv_text::{Memory, Pos, Text};
use std::alloc::Global;
use vl_elab_check_expr::{first_of, twice_if};
use vl_elab_names::{ModulePath, ModuleTable, NameSet};
use vl_elab_spec::ElabFault;
use vl_tree::{Instance, Module};

/// A module that isn't there.
fn no_module_if(alloc: Global, test: bool, name: &Text) -> Result<Option<ElabFault>, Memory>
    ensures { IfOk result (λ g. g ≡ lowest (refused_if test (f.NoModule name.now))) }
{
    if !test {
        return Ok(None);
    }
    Ok(Some(ElabFault::NoModule(name.copied(alloc)?)))
}

/// An instance within its own module.
fn recursive_if(alloc: Global, test: bool, path: &ModulePath) -> Result<Option<ElabFault>, Memory>
    ensures { IfOk result (λ g. g ≡ lowest (refused_if test (f.Recursive path.now))) }
{
    if !test {
        return Ok(None);
    }
    Ok(Some(ElabFault::Recursive(path.names(alloc)?)))
}

/// None of the three reasons is there.
fn are_none(missing: bool, twice: bool, within: bool) -> bool
    ensures { result ≡ not (missing || (twice || within)) }
{
    !(missing || twice || within)
}

/// Which of the three reasons is answered.
fn refused(
    alloc: Global,
    missing: bool,
    twice: bool,
    within: bool,
    pos: Pos,
    instance: &Instance,
    path: &ModulePath,
) -> Result<Option<ElabFault>, Memory>
    ensures { IfOk result (λ g. g ≡ lowest (spec.refused_by missing twice within pos instance.now path.now)) }
{
    let module = no_module_if(alloc, missing, &instance.definition)?;
    let twice = twice_if(alloc, twice, &instance.name, pos)?;
    let inner = recursive_if(alloc, within, path)?;
    Ok(first_of(first_of(module, twice), inner))
}

/// An instance by its own name and by the module that it names. `path`: the modules that it stands in; `earlier`: the
/// names that stand before it in its scope.
pub fn instance_fault(
    alloc: Global,
    modules: &ModuleTable,
    all: &[Module],
    pos: Pos,
    instance: &Instance,
    path: &ModulePath,
    earlier: &NameSet,
) -> Result<Option<ElabFault>, Memory>
    requires { AreModules modules.now all.now }
    ensures { IfOk result (λ g. (at : Place) → AreNames earlier.now at.earlier → path.now ≡ at.modules
        → g ≡ lowest (instance_refusals all.now at pos instance.now)) }
{
    let missing = modules.find(all, &instance.definition).is_none();
    let twice = earlier.contains(&instance.name);
    let within = path.contains(&instance.definition);
    if are_none(missing, twice, within) {
        return Ok(None);
    }
    let fault = refused(alloc, missing, twice, within, pos, instance, path)?;
    Ok(fault)
}
