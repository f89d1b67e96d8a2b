ghost use Rattle.std.specs.Prelude.{◌≡◌, ◌++◌, ◌∷◌, [], IfOk, OnOk};
ghost use Rattle.fv_bit_sets.specs.Cells.{has};
ghost use Rattle.vl_flow_order.specs.Named.{AreMarks, AreNamesOf, IsMark};

use crate::reads_groups::Groups;
use crate::union::union_of;
use crate::visit::visits_of;
use fv_bit_sets::Bits;
use fv_text::Memory;
use std::alloc::Global;

/// Bit 0 of the cell with this number.
fn mark(alloc: Global, group: u32) -> Result<Bits, Memory>
    ensures { IfOk result (IsMark group) }
{
    let first = u64::from(group);
    Ok(Bits::of_cells(alloc, first, first + 1, 1)?)
}

pub(crate) fn push(marks: &mut Vec<Bits>, mark: Bits) -> Result<(), Memory>
    ensures { OnOk result (marks.new.items ≡ marks.old.items ++ mark ∷ []) }
{
    if marks.push(mark).is_err() {
        return Err(Memory);
    }
    Ok(())
}

/// The groups of which the set has a bit: bit 0 of the cells with their numbers.
pub fn named(alloc: Global, groups: &Groups, bits: &Bits) -> Result<Bits, Memory>
    ensures { IfOk result (AreNamesOf groups.now bits.now) }
{
    let visits = visits_of(alloc, groups, bits)?;
    let mut marks = Vec::new(alloc);
    let all = visits.as_slice();
    for visit in all {
        push(&mut marks, mark(alloc, visit.group)?)?;
    }
    Ok(union_of(alloc, marks.as_slice())?)
}
