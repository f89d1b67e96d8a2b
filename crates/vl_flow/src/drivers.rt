ghost use Rattle.std.specs.Prelude.{All, IfOk, OnOk};
ghost use Rattle.vl_flow_cells.specs.Numbering.{IsNumberingOf};
ghost use Rattle.vl_flow.specs.Analyses.{AreSetsOf, AddsUses};
ghost use Rattle.vl_mean.specs.FlatLaw.{IsDriver};

use fv_bit_sets::Bits;
use fv_text::{List, Memory};
use std::alloc::Global;
use vl_flow_cells::Numbering;
use vl_flow_cells::uses_law::drivers_are_sized;
use vl_flow_effects::{Assigned, Uses, uses_of};
use vl_flow_order::Footprint;
use vl_mean::Driver;
use vl_size::Decls;

/// What drivers do to bits of numbered cells, and the names that they assign, in their order.
#[derive(Drop)]
pub(crate) struct DriverSets {
    pub(crate) footprints: List<Footprint>,
    pub(crate) latched: List<Bits>,
    pub(crate) assigned: List<Assigned>,
}

/// Puts what one driver does behind the others.
fn add(sets: &mut DriverSets, uses: Uses) -> Result<(), Memory>
    ensures { OnOk result (AddsUses sets.old uses sets.new) }
{
    let Uses {
        footprint,
        latched,
        assigned,
    } = uses;
    sets.footprints.push(footprint)?;
    sets.latched.push(latched)?;
    sets.assigned.push(assigned)?;
    Ok(())
}

/// What each driver does. Time is about linear in them.
pub(crate) fn sets_of(
    alloc: Global,
    drivers: &[Driver],
    decls: &Decls,
    numbering: &Numbering,
) -> Result<DriverSets, Memory>
    requires { IsNumberingOf decls.now numbering.now }
    ensures { IfOk result (λ sets. All (λ x. IsDriver decls.now x.what) drivers.now
        → AreSetsOf decls.now drivers.now sets) }
{
    drivers_are_sized();
    let mut sets = DriverSets {
        footprints: List::new(alloc),
        latched: List::new(alloc),
        assigned: List::new(alloc),
    };
    for driver in drivers {
        let uses = uses_of(alloc, &driver.what, decls, numbering)?;
        add(&mut sets, uses)?;
    }
    Ok(sets)
}
