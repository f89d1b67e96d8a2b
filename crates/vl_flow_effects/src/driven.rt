ghost use Rattle.std.specs.Prelude.{◌≡◌, All, IfOk};
ghost use Rattle.fv_bit_sets.specs.Cells.{has};
ghost use Rattle.vl_flow_cells.specs.Numbered.{Shows};
ghost use Rattle.vl_flow_cells.specs.Numbering.{IsNumberingOf};
ghost use Rattle.vl_flow_cells.specs.Sized.{DriverIsSized};
ghost use Rattle.vl_mean.specs.FlatLaw.{IsDriver, flat_scopes};
ghost use Rattle.vl_mean.specs.FlatParts.{driver_part};
ghost use Rattle.vl_mean.specs.Runs.{is_driven_by};
ghost use Rattle.vl_flow_effects.specs.Masks.{AreDriven};

use crate::masks::{masks_of, push};
use crate::uses::{Uses, uses_of};
use fv_bit_sets::Bits;
use fv_text::{List, Memory};
use std::alloc::Global;
use vl_flow_cells::Numbering;
use vl_flow_cells::uses_law::drivers_are_sized;
use vl_flow_order::{Footprint, union_of};
use vl_mean::{Driver, DriverKind};
use vl_size::Decls;

/// What a driver may assign.
fn assigned_in(uses: Uses) -> Bits
    ensures { result ≡ uses.footprint.drives }
{
    let Uses {
        footprint,
        latched,
        assigned,
    } = uses;
    drop(latched);
    drop(assigned);
    let Footprint {
        is_clocked: _,
        needs,
        drives,
    } = footprint;
    drop(needs);
    drives
}

/// What a driver may assign, where it is a combinational block.
fn driven_by(
    alloc: Global,
    what: &DriverKind,
    decls: &Decls,
    numbering: &Numbering,
) -> Result<Bits, Memory>
    requires { IsNumberingOf decls.now numbering.now }
    ensures { IfOk result (λ bits. DriverIsSized decls.now what.now
        → Shows decls.now (has bits) (is_driven_by (driver_part (flat_scopes decls.now) what.now))) }
{
    match what {
        DriverKind::Assign(_, _) => Ok(Bits::none(alloc)),
        DriverKind::Comb(_) => {
            let uses = uses_of(alloc, what, decls, numbering)?;
            Ok(assigned_in(uses))
        }
        DriverKind::Clocked(_) => Ok(Bits::none(alloc)),
    }
}

/// The bits that combinational blocks may assign, by either kind of assignment: a mask for each cell, by its number.
/// Time is about linear in the drivers and in the names' words.
pub fn driven_masks(
    alloc: Global,
    drivers: &[Driver],
    decls: &Decls,
    numbering: &Numbering,
) -> Result<List<u128>, Memory>
    requires numbering { IsNumberingOf decls.now numbering.now }
    requires driven { All (λ x. IsDriver decls.now x.what) drivers.now }
    ensures { IfOk result (AreDriven decls.now drivers.now) }
{
    drivers_are_sized();
    let mut sets = Vec::new(alloc);
    for driver in drivers {
        let set = driven_by(alloc, &driver.what, decls, numbering)?;
        push(&mut sets, set)?;
    }
    let all = union_of(alloc, sets.as_slice())?;
    Ok(masks_of(alloc, &all, decls)?)
}
