ghost use Rattle.std.specs.Prelude.{◌≡◌, ◌≤◌, ◌++◌, ◌∷◌, [], All, IfOk, OnOk, length};
ghost use Rattle.fv_bit_sets.specs.Cells.{has};
ghost use Rattle.vl_flow_cells.specs.Numbered.{Shows, all_cells};
ghost use Rattle.vl_mean.specs.FlatLaw.{IsKept, all_names_count};
ghost use Rattle.vl_flow_spec.specs.Reads.{Bits as BitsOf};
ghost use Rattle.vl_flow_effects.specs.Masks.{AreMasks};

use fv_bit_sets::Bits;
use fv_text::{List, Memory};
use std::alloc::Global;
use vl_flow_cells::cell_count;
use vl_size::Decls;

/// How many cells declarations have.
fn count_of(decls: &Decls) -> u64
    requires kept { All IsKept decls.now }
    requires few { all_names_count decls.now ≤ 200000 }
    ensures { result ≡ length (all_cells decls.now) }
{
    let mut count = 0;
    for index in 0..decls.len() {
        match decls.get(index) {
            None => unreachable!(),
            Some(decl) => count += cell_count(decl),
        }
    }
    count
}

/// Puts the set behind the others.
pub(crate) fn push(sets: &mut Vec<Bits>, set: Bits) -> Result<(), Memory>
    ensures { OnOk result (sets.new.items ≡ sets.old.items ++ set ∷ []) }
{
    if sets.push(set).is_err() {
        return Err(Memory);
    }
    Ok(())
}

/// The bits that a set has of each cell.
pub(crate) fn masks_of(alloc: Global, bits: &Bits, decls: &Decls) -> Result<List<u128>, Memory>
    requires kept { All IsKept decls.now }
    requires few { all_names_count decls.now ≤ 200000 }
    ensures { IfOk result (λ masks. (K : BitsOf) → Shows decls.now (has bits.now) K
        → AreMasks decls.now masks K) }
{
    let count = count_of(decls);
    let mut masks = List::new(alloc);
    for cell in 0..count {
        masks.push(bits.mask(cell))?;
    }
    Ok(masks)
}
