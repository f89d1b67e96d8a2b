ghost use Rattle.std.specs.Prelude.{◌≡◌, ◌<◌, ◌≤◌, ◌++◌, ◌∷◌, [], length, None, IfOk};
ghost use Rattle.std.specs.Prelude.{IfNone, IfSome, OnOk};
ghost use Rattle.vl_flow_order.specs.Visits.{AreVisits, Stands};

use crate::reads_groups::Groups;
use fv_bit_sets::Bits;
use fv_text::Memory;
use std::alloc::Global;

/// A group of which some bit is in a set: the first such cell, and the cell behind the group.
#[derive(Debug, Clone, Copy)]
pub struct Visit {
    pub group: u32,
    pub first: u64,
    pub past: u64,
}

/// The cell's group from the cell on. None exactly where there is no such cell.
fn visit_at(groups: &Groups, cell: u64) -> Option<Visit>
    ensures some { IfSome result (λ visit. Stands groups.now cell visit × (cell < visit.past)) }
    ensures none { IfNone result (length groups.now.of_cells ≤ cell) }
{
    let of_cells = groups.of_cells.as_slice();
    if of_cells.len() as u64 <= cell {
        return None;
    }
    let group = of_cells[cell as usize];
    let past = groups.ends.as_slice()[group as usize];
    Some(Visit {
        group,
        first: cell,
        past,
    })
}

fn push(visits: &mut Vec<Visit>, visit: Visit) -> Result<(), Memory>
    ensures { OnOk result (visits.new.items ≡ visits.old.items ++ visit ∷ []) }
{
    if visits.push(visit).is_err() {
        return Err(Memory);
    }
    Ok(())
}

/// The groups of which some bit is in the set, each once, in time about linear in them and in the runs of bits.
pub fn visits_of(alloc: Global, groups: &Groups, bits: &Bits) -> Result<Vec<Visit>, Memory>
    ensures { IfOk result (λ visits. AreVisits groups.now bits.now visits.items None) }
{
    let mut visits = Vec::new(alloc);
    let mut next = bits.first_from(0);
    while let Some(cell) = next {
        let Some(visit) = visit_at(groups, cell) else {
            return Ok(visits);
        };
        push(&mut visits, visit)?;
        next = bits.first_from(visit.past);
    }
    Ok(visits)
}
