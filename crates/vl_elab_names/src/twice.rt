//! Modules that stand twice.
ghost use Rattle.std.specs.Prelude.{◌≡◌, [], false, IfOk};
ghost use Rattle.vl_elab_spec.specs.Refused as refused;
ghost use Rattle.vl_elab_names.specs.Table as spec;

use crate::set::NameSet;
use fv_text::Memory;
use std::alloc::Global;
use vl_elab_spec::ElabFault;
use vl_tree::Module;

fn first_twice(alloc: Global, all: &[Module]) -> Result<Option<ElabFault>, Memory>
    ensures { IfOk result (λ g. g ≡ spec.twice_by (λ text. false) all.now) }
{
    let mut earlier = NameSet::new(alloc);
    for module in all {
        if earlier.contains(&module.name) {
            return Ok(Some(ElabFault::Twice(module.name.copied(alloc)?, module.pos)));
        }
        earlier.add(module.name.copied(alloc)?)?;
    }
    Ok(None)
}

/// The first module whose name one before it has. None exactly where there is none.
pub fn modules_twice(alloc: Global, all: &[Module]) -> Result<Option<ElabFault>, Memory>
    ensures { IfOk result (λ g. g ≡ refused.modules_twice [] all.now) }
{
    first_twice(alloc, all)
}
