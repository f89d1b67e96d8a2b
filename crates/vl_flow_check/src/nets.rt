ghost use Rattle.std.specs.Prelude.{◌≡◌, ◌++◌, ◌∷◌, [], All, List, IfOk, OnOk, slice_get};
ghost use Rattle.vl_flow_order.specs.CellGroups.{AreGroupsOf};
ghost use Rattle.vl_flow_check.specs.Layouts.{IsLayoutOf};
ghost use Rattle.vl_flow_check.specs.Rows.{AreSets};
ghost use Rattle.vl_flow_check.specs.Undriven.{IsUndriven, TellsBit};
ghost use Rattle.vl_mean.specs.FlatLaw.{IsKept};
ghost use Rattle.vl_mean.specs.declared.driver.Driver.{Driver};
ghost use Rattle.vl_flow_spec.specs.Refusals as spec;
ghost use Rattle.vl_flow_spec.specs.Drivers.{driven_by};
ghost use Rattle.vl_size.specs.declared.decl.Decl.{Decl};

use crate::layout::{Layout, Names, bits_of_names};
use crate::name::name_of;
use fv_bit_sets::Bits;
use fv_text::{Memory, Text};
use std::alloc::Global;
use vl_flow_order::{Groups, union_of};
use vl_size::Decls;

fn push(sets: &mut Vec<Bits>, set: Bits) -> Result<(), Memory>
    ensures { OnOk result (sets.new.items ≡ sets.old.items ++ set ∷ []) }
{
    if sets.push(set).is_err() {
        return Err(Memory);
    }
    Ok(())
}

/// What each driver may assign.
pub(crate) fn drives_of(alloc: Global, layout: &Layout) -> Result<Vec<Bits>, Memory>
    ensures { IfOk result (λ sets. (ds : List Decl) (drivers : List Driver) → IsLayoutOf ds drivers layout.now
        → AreSets ds (driven_by ds) sets.items drivers) }
{
    let footprints = layout.footprints.as_slice();
    let mut sets = Vec::new(alloc);
    for footprint in footprints {
        let copy = footprint.drives.with(&footprint.drives)?;
        push(&mut sets, copy)?;
    }
    Ok(sets)
}

/// The bits of nets that no driver may assign.
fn undriven_bits(alloc: Global, layout: &Layout, decls: &Decls) -> Result<Bits, Memory>
    requires { AreGroupsOf decls.now layout.now.groups }
    ensures { IfOk result (λ made. (drivers : List Driver) → IsLayoutOf decls.now drivers layout.now
        → IsUndriven decls.now drivers made) }
{
    let nets = bits_of_names(alloc, decls, &layout.groups, Names::Nets)?;
    let drives = drives_of(alloc, layout)?;
    let driven = union_of(alloc, drives.as_slice())?;
    Ok(nets.without(&driven)?)
}

/// The name that has the cell, by its place. None exactly where no name has it.
fn group_of(groups: &Groups, cell: u64) -> Option<u32>
    ensures { result ≡ slice_get groups.now.of_cells cell }
{
    match groups.of_cells.get(cell as usize) {
        Some(group) => Some(*group),
        None => None,
    }
}

/// The bit of a cell, with the cell's name. None exactly where no name has the cell.
fn named_bit(
    alloc: Global,
    groups: &Groups,
    decls: &Decls,
    cell: u64,
    bit: u32,
) -> Result<Option<(Text, u32)>, Memory>
    requires { AreGroupsOf decls.now groups.now }
    ensures { IfOk result (TellsBit decls.now cell bit) }
{
    let Some(place) = group_of(groups, cell) else {
        return Ok(None);
    };
    let name = name_of(alloc, decls, place as usize)?;
    Ok(Some((name, bit)))
}

/// The lowest bit of the first net of which some bit has no driver.
pub fn undriven(
    alloc: Global,
    layout: &Layout,
    decls: &Decls,
) -> Result<Option<(Text, u32)>, Memory>
    requires groups { AreGroupsOf decls.now layout.now.groups }
    requires kept { All IsKept decls.now }
    ensures { IfOk result (λ found. (drivers : List Driver) → IsLayoutOf decls.now drivers layout.now
        → found ≡ spec.undriven decls.now drivers) }
{
    let bits = undriven_bits(alloc, layout, decls)?;
    let Some(cell) = bits.first_from(0) else {
        return Ok(None);
    };
    let bit = bits.mask(cell).trailing_zeros();
    Ok(named_bit(alloc, &layout.groups, decls, cell, bit)?)
}
