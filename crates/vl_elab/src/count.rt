//! Bits of variables that no combinational block assigns.
ghost use Rattle.std.specs.Prelude.{◌≡◌, ◌*◌, ◌<◌, ◌≤◌, All, IfOk, length};
ghost use Rattle.fv_bit_sets.specs.Cells.{is_set};
ghost use Rattle.vl_flow_cells.specs.Numbered.{all_cells};
ghost use Rattle.vl_mean.specs.FlatLaw.{IsKept};
ghost use Rattle.vl_mean.specs.FlatParts.{flat_parts};
ghost use Rattle.vl_elab_spec.specs.Refused as refused;
ghost use Rattle.vl_size.specs.Table.{IsShaped};
ghost use Rattle.vl_elab.specs.Bits as spec;

use fv_text::Memory;
use std::alloc::Global;
use vl_flow_cells::{Numbering, cell_count};
use vl_flow_effects::driven_masks;
use vl_mean::Flat;
use vl_size::{Class, Decl, Decls};

fn has(mask: u128, bit: u32) -> bool
    requires { bit < 128 }
    ensures { result ≡ is_set mask bit }
{
    (mask >> bit) & 1 == 1
}

/// How many bits below the width a mask doesn't have.
fn bits_outside(mask: u128, width: u32) -> u64
    requires { width ≤ 128 }
    ensures value { result ≡ spec.bits_outside mask width }
    ensures few { result ≤ width }
{
    let mut count = 0;
    for bit in 0..width {
        if !has(mask, bit) {
            count += 1;
        }
    }
    count
}

/// The same of each mask.
fn all_outside(masks: &[u128], width: u32) -> u64
    requires width { width ≤ 128 }
    requires few { length masks.now ≤ 200000 }
    ensures value { result ≡ spec.all_outside width masks.now }
    ensures few { result ≤ 128 * length masks.now }
{
    let mut count = 0;
    for mask in masks {
        count += bits_outside(*mask, width);
    }
    count
}

/// Of a variable, those of its cells that no mask has.
fn own_bits(decl: &Decl, masks: &[u128]) -> u64
    requires shaped { IsShaped decl.now }
    requires few { length masks.now ≤ 200000 }
    ensures value { result ≡ spec.mask_bits decl.now.class decl.now.width masks.now }
    ensures few { result ≤ 128 * length masks.now }
{
    match decl.class {
        Class::Variable => all_outside(masks, decl.width),
        Class::Input | Class::Reset | Class::Clock => 0,
        Class::EachCycle | Class::Once | Class::Net => 0,
    }
}

/// `masks`: one for each cell, in order.
fn variable_bits(decls: &Decls, masks: &[u128]) -> u64
    requires kept { All IsKept decls.now }
    requires cells { length masks.now ≡ length (all_cells decls.now) }
    requires few { length masks.now ≤ 200000 }
    ensures { result ≡ spec.all_mask_bits decls.now masks.now }
{
    let mut bits = 0;
    let mut rest = masks;
    for index in 0..decls.len() {
        match decls.get(index) {
            None => unreachable!(),
            Some(decl) => {
                let (own, behind) = rest.split_at(cell_count(decl) as usize);
                bits += own_bits(decl, own);
                rest = behind;
            }
        }
    }
    bits
}

/// How many bits of variables no combinational block assigns: those of the design's registers, and of memories. Time is
/// linear in the bits of names and about linear in the drivers.
pub fn state_bits(alloc: Global, flat: &Flat) -> Result<u64, Memory>
    ensures { IfOk result (λ bits. bits ≡ refused.state_bits (flat_parts flat.now) (flat_parts flat.now)) }
{
    let _count = flat.decls.len();
    let numbering = Numbering::of(alloc, &flat.decls)?;
    let masks = driven_masks(alloc, flat.drivers.as_slice(), &flat.decls, &numbering)?;
    Ok(variable_bits(&flat.decls, masks.as_slice()))
}
