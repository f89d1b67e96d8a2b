//! Entries of all names.

ghost use Rattle.std.specs.Prelude.{◌≡◌, ◌<◌, ◌^◌, All, IfOk, length};
ghost use Rattle.vl_mean.specs.FlatLaw.{IsKept};
ghost use Rattle.vl_flow_cells.specs.Numbered.{all_cells};
ghost use Rattle.vl_lower.specs.Listed.{entries_by};

use crate::name::put_name;
use fv_text::{List, Memory};
use std::alloc::Global;
use vl_flow_cells::cell_count;
use vl_size::Decls;
use wn_net::{NetName, NodeId};

/// The entries of declared names but the clock, in their order: a memory by its number where its first cell is one of
/// `firsts`, and else a node for each of the name's cells. Time is linear in the cells.
pub fn entries_of(
    alloc: Global,
    decls: &Decls,
    cells: &[NodeId],
    firsts: &[u32],
) -> Result<List<NetName>, Memory>
    requires kept { All IsKept decls.now }
    requires cells { length cells.now ≡ length (all_cells decls.now) }
    requires few { length firsts.now < 2 ^ 32 }
    ensures { IfOk result (λ list. list ≡ entries_by firsts.now decls.now cells.now 0 0) }
{
    let mut list = List::new(alloc);
    let mut first = 0;
    let mut memory = 0;
    for index in 0..decls.len() {
        match decls.get(index) {
            None => unreachable!(),
            Some(decl) => {
                memory = put_name(alloc, &mut list, decl, cells, first, firsts, memory)?;
                first += cell_count(decl) as usize;
            }
        }
    }
    Ok(list)
}
