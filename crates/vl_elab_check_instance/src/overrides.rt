//! What an instance gives to the parameters of its module.
ghost use Rattle.std.specs.Prelude.{◌≡◌, ℕ, List, IfOk};
ghost use Rattle.vl_mean.specs.Walk.{Place, Use};
ghost use Rattle.vl_elab_spec.specs.Items as items;
ghost use Rattle.vl_elab_spec.specs.Meanings.{meanings_at};
ghost use Rattle.vl_elab_spec.specs.Refused.{lowest};
ghost use Rattle.vl_elab_scope.specs.Alike.{Alike};
ghost use Rattle.vl_elab_names.specs.Known.{AreNames};
ghost use Rattle.vl_elab_check_instance.specs.Parameters.{AreParametersOf};

use crate::parameters::ParameterTable;
use fv_text::Memory;
use std::alloc::Global;
use vl_elab_check_item::override_fault;
use vl_elab_names::NameSet;
use vl_elab_scope::Names;
use vl_elab_spec::ElabFault;
use vl_tree::{Connection, Module};

/// What an instance gives to a parameter of its module. `names`: what names mean where the instance stands; `inner`:
/// what they mean in the module; `earlier`: the names that something is given to before it.
pub fn override_step_fault(
    alloc: Global,
    parameters: &ParameterTable,
    module: &Module,
    given: &Connection,
    names: &Names,
    inner: &Names,
    earlier: &NameSet,
) -> Result<Option<ElabFault>, Memory>
    requires { AreParametersOf parameters.now module.now }
    ensures { IfOk result (λ g. (at : Place) (u : Use) (before : List (List ℕ)) → Alike names.now (meanings_at at)
        → Alike inner.now (items.inner_meanings module.now u) → AreNames earlier.now before
        → g ≡ lowest (items.override_refusals at module.now u before given.now)) }
{
    let parameter = parameters.find(module, &given.port);
    let is_twice = earlier.contains(&given.port);
    override_fault(alloc, given, is_twice, parameter, names, inner)
}
