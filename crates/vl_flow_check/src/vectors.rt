ghost use Rattle.std.specs.Prelude.{All, IfOk, List, OnOk, replicate, if◌then◌else◌};
ghost use Rattle.fv_bit_sets.specs.Cells.{has};
ghost use Rattle.vl_flow_cells.specs.Numbered.{Shows};
ghost use Rattle.vl_flow_cells.specs.Numbering.{IsNumberingOf};
ghost use Rattle.vl_flow_check.specs.Layouts.{IsLayoutOf};
ghost use Rattle.vl_flow_order.specs.Footprints.{IsFootprintOf};
ghost use Rattle.vl_mean.specs.FlatLaw.{IsDriver};
ghost use Rattle.vl_flow_spec.specs.Refusals.{times_driven};
ghost use Rattle.vl_flow_spec.specs.Reads.{Bits as BitsOf};
ghost use Rattle.vl_size.specs.declared.decl.Decl.{Decl};
ghost use Rattle.vl_flow_check.specs.Shares.{AddsPlaces, AreBitShares};

use crate::layout::Layout;
use crate::share::{Share, push};
use crate::target::target_shares;
use fv_text::{Memory, Pos};
use std::alloc::Global;
use vl_flow_cells::Numbering;
use vl_flow_order::Footprint;
use vl_mean::{Driver, DriverKind};
use vl_size::Decls;

/// Puts all that a block assigns behind the others, as one share.
fn block_share(footprint: &Footprint, pos: Pos, into: &mut Vec<Share>) -> Result<(), Memory>
    ensures { OnOk result ((ds : List Decl) (K : BitsOf) → Shows ds (has footprint.now.drives) K
        → AddsPlaces ds into.old.items into.new.items (λ n i. replicate (if K n i then 1 else 0) pos)) }
{
    let bits = footprint.drives.with(&footprint.drives)?;
    push(into, Share { bits, pos })?;
    Ok(())
}

/// Puts what a driver assigns behind the others: of an assignment each name of the target.
fn driver_shares(
    alloc: Global,
    driver: &Driver,
    footprint: &Footprint,
    decls: &Decls,
    numbering: &Numbering,
    into: &mut Vec<Share>,
) -> Result<(), Memory>
    requires { IsNumberingOf decls.now numbering.now }
    ensures { OnOk result (IsDriver decls.now driver.now.what
        → IsFootprintOf decls.now footprint.now driver.now.what
        → AddsPlaces decls.now into.old.items into.new.items
        (λ n i. replicate (times_driven decls.now driver.now.what n i) driver.now.pos)) }
{
    match &driver.what {
        DriverKind::Assign(target, _) => {
            target_shares(alloc, target, driver.pos, decls, numbering, into)?;
            Ok(())
        }
        DriverKind::Comb(_) => {
            block_share(footprint, driver.pos, into)?;
            Ok(())
        }
        DriverKind::Clocked(_) => {
            block_share(footprint, driver.pos, into)?;
            Ok(())
        }
    }
}

/// What the drivers assign, bit by bit.
pub(crate) fn bit_shares(
    alloc: Global,
    layout: &Layout,
    decls: &Decls,
    drivers: &[Driver],
    numbering: &Numbering,
) -> Result<Vec<Share>, Memory>
    requires layout { IsLayoutOf decls.now drivers.now layout.now }
    requires numbering { IsNumberingOf decls.now numbering.now }
    requires driven { All (λ x. IsDriver decls.now x.what) drivers.now }
    ensures { IfOk result (λ shares. AreBitShares decls.now drivers.now shares.items) }
{
    let footprints = layout.footprints.as_slice();
    let mut shares = Vec::new(alloc);
    for at in 0..drivers.len() {
        driver_shares(
            alloc,
            &drivers[at],
            &footprints[at],
            decls,
            numbering,
            &mut shares,
        )?;
    }
    Ok(shares)
}
