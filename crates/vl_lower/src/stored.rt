//! Which memories are kept as memories of the net.

ghost use Rattle.std.specs.Prelude.{◌≡◌, ◌≤◌, ◌+◌, length};
ghost use Rattle.vl_size.specs.Table.{IsShaped};
ghost use Rattle.vl_mean.specs.Cells.{cells};
ghost use Rattle.vl_mean.specs.FlatLaw.{IsKept};
ghost use Rattle.vl_lower.specs.Design as spec;
ghost use Rattle.vl_lower.specs.Design.{keeping};

use crate::keeping::is_whole;
use vl_flow_cells::cell_count;
use vl_lower_cell_laws::Keep;
use vl_size::Decl;

/// Whether a name is a memory of which each word takes one register: its first cell has the number.
pub(crate) fn is_stored(decl: &Decl, keeps: &[Keep], first: usize) -> bool
    requires kept { IsKept decl.now }
    requires shaped { IsShaped decl.now }
    requires there { first + length (cells decl.now) ≤ length keeps.now }
    ensures { result ≡ spec.is_stored (keeping keeps.now) decl.now first }
{
    if decl.words.is_none() {
        return false;
    }
    let count = cell_count(decl) as usize;
    for word in 0..count {
        if !is_whole(&keeps[first + word], decl.width) {
            return false;
        }
    }
    true
}
