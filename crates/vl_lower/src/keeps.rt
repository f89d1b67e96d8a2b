ghost use Rattle.std.specs.Prelude.{◌≡◌, IfOk, length};
ghost use Rattle.vl_mean.specs.FlatParts.{flat_parts};
ghost use Rattle.vl_lower.specs.Design.{AreKeepsOf};
ghost use Rattle.vl_lower.specs.Keeping.{AreJoined};

use fv_text::{List, Memory};
use std::alloc::Global;
use vl_flow_cells::Numbering;
use vl_flow_effects::{driven_masks, started_masks};
use vl_lower_cell_laws::Keep;
use vl_lower_stmt::first_numbers;
use vl_mean::Flat;

/// Masks and numbers of the same cells, put together.
fn joined(
    alloc: Global,
    driven: &[u128],
    known: &[u128],
    values: &[u128],
) -> Result<List<Keep>, Memory>
    requires known { length known.now ≡ length driven.now }
    requires values { length values.now ≡ length driven.now }
    ensures { IfOk result (AreJoined driven.now known.now values.now) }
{
    let mut keeps = List::new(alloc);
    for cell in 0..driven.len() {
        keeps.push(Keep {
            driven: driven[cell],
            known: known[cell],
            value: values[cell],
        })?;
    }
    Ok(keeps)
}

/// What is kept of each cell, by its number. Time is about linear in the drivers, the starts and the names' words.
pub fn keeps_of(alloc: Global, flat: &Flat) -> Result<List<Keep>, Memory>
    ensures { IfOk result (AreKeepsOf (flat_parts flat.now) flat.now.decls) }
{
    let _count = flat.decls.len();
    let numbering = Numbering::of(alloc, &flat.decls)?;
    let driven = driven_masks(alloc, flat.drivers.as_slice(), &flat.decls, &numbering)?;
    let known = started_masks(alloc, flat.starts.as_slice(), &flat.decls, &numbering)?;
    let values = first_numbers(alloc, flat.starts.as_slice(), &flat.decls)?;
    Ok(joined(
        alloc,
        driven.as_slice(),
        known.as_slice(),
        values.as_slice(),
    )?)
}
