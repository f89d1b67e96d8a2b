ghost use Rattle.std.specs.Prelude.{◌≡◌, ◌++◌, ◌∷◌, [], List, ℕ, Some, IfOk, OnOk, is_none, slice_get};
ghost use Rattle.std.specs.Prelude.{if◌then◌else◌};
ghost use Rattle.std.specs.Option.{option_map};
ghost use Rattle.fv_bit_sets.specs.Cells.{has};
ghost use Rattle.vl_mean.specs.ConstantFaults.{capped};
ghost use Rattle.vl_flow_spec.specs.Weight as spec;
ghost use Rattle.vl_flow_order.specs.Names.{AreNames};

use fv_bit_sets::Bits;
use fv_text::Memory;
use vl_mean::widths::plus;
use vl_size::Decls;

pub(crate) fn push(sets: &mut Vec<Bits>, set: Bits) -> Result<(), Memory>
    ensures { OnOk result (sets.new.items ≡ sets.old.items ++ set ∷ []) }
{
    if sets.push(set).is_err() {
        return Err(Memory);
    }
    Ok(())
}

/// The width of the name at a place, where it is that of a vector; None past the last name.
fn width_at(decls: &Decls, place: u64) -> Option<u64>
    ensures { result ≡ option_map (λ d. if is_none d.words then d.width else 0) (slice_get decls.now place) }
{
    let decl = decls.get(place as usize)?;
    if decl.words.is_none() {
        Some(u64::from(decl.width))
    } else {
        Some(0)
    }
}

/// The widths of the vectors among the names, each once.
pub(crate) fn merge_weight(names: &Bits, decls: &Decls) -> u64
    ensures { (all : List (List ℕ)) → AreNames decls.now all (has names.now)
        → result ≡ capped (spec.merge_weight decls.now all) }
{
    let _count = decls.len();
    let mut weight = 0;
    let mut next = names.first_from(0);
    while let Some(place) = next {
        let Some(width) = width_at(decls, place) else {
            return weight;
        };
        weight = plus(weight, width);
        next = names.first_from(place + 1);
    }
    weight
}
