ghost use Rattle.std.specs.Prelude.{◌≡◌, ◌+◌, ◌<◌, ◌≤◌, suc, length, All, IfOk, OnOk};
ghost use Rattle.vl_mean.specs.FlatLaw.{IsKept, all_names_count};
ghost use Rattle.vl_flow_cells.specs.Numbered.{first_cell};
ghost use Rattle.vl_flow_order.specs.CellGroups.{AreGroupsOf, PutsCells};

use crate::reads_groups::Groups;
use fv_text::{List, Memory};
use std::alloc::Global;
use vl_flow_cells::cell_count;
use vl_size::Decls;

/// How many cells the declaration at a place has.
fn count_at(decls: &Decls, index: usize) -> u64
    requires kept { All IsKept decls.now }
    requires within { index < length decls.now }
    ensures { first_cell decls.now (suc index) ≡ first_cell decls.now index + result }
{
    match decls.get(index) {
        None => unreachable!(),
        Some(decl) => cell_count(decl),
    }
}

/// So many cells of one group behind the others.
fn put_cells(of_cells: &mut List<u32>, group: u32, count: u64) -> Result<(), Memory>
    ensures { OnOk result (PutsCells of_cells.old group count of_cells.new) }
{
    for turn in 0..count {
        of_cells.push(group)?;
    }
    Ok(())
}

/// The cells of each name as one group, whose number is the name's place. Time is linear in the cells.
pub fn groups_of(alloc: Global, decls: &Decls) -> Result<Groups, Memory>
    requires kept { All IsKept decls.now }
    requires few { all_names_count decls.now ≤ 200000 }
    ensures { IfOk result (AreGroupsOf decls.now) }
{
    let mut of_cells = List::new(alloc);
    let mut ends = List::new(alloc);
    for index in 0..decls.len() {
        put_cells(&mut of_cells, index as u32, count_at(decls, index))?;
        ends.push(of_cells.len() as u64)?;
    }
    Ok(Groups { of_cells, ends })
}
