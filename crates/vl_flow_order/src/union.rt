ghost use Rattle.std.specs.Prelude.{◌≡◌, ℕ, IfOk};
ghost use Rattle.fv_bit_sets.specs.Cells.{has};
ghost use Rattle.vl_flow_order.specs.Sets.{some_has};

use fv_bit_sets::Bits;
use fv_text::Memory;
use std::alloc::Global;

/// The bits of one or more of the sets: both halves first, so that time is about linear in them.
pub fn union_of(alloc: Global, sets: &[Bits]) -> Result<Bits, Memory>
    ensures { IfOk result (λ bits. (cell bit : ℕ) → has bits cell bit ≡ some_has sets.now cell bit) }
{
    if sets.len() == 0 {
        return Ok(Bits::none(alloc));
    }
    if sets.len() == 1 {
        return Ok(sets[0].with(&Bits::none(alloc))?);
    }
    let middle = sets.len() / 2;
    let first = union_of(alloc, &sets[..middle])?;
    let second = union_of(alloc, &sets[middle..])?;
    Ok(first.with(&second)?)
}
