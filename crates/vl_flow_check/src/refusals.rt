ghost use Rattle.std.specs.Prelude.{◌≡◌, IfOk};
ghost use Rattle.vl_flow_check.specs.Layouts.{IsLayoutOf};
ghost use Rattle.vl_flow_check.specs.Rows.{AreSets};
ghost use Rattle.vl_flow_spec.specs.Refusals as spec;

use crate::first::first_named;
use crate::layout::Layout;
use crate::rows::{name_rows, names_of, read_rows};
use crate::which::Which;
use fv_bit_sets::Bits;
use fv_text::{Memory, Pos, Text};
use std::alloc::Global;
use vl_flow_order::{crossing_of, union_of};
use vl_mean::Driver;
use vl_size::Decls;
use vl_tree::AssignKind;

/// The first name of which a combinational block may change a bit that it doesn't surely assign, with the earliest
/// place of its drivers. The sets are those of the bits that the drivers latch.
pub fn latch(
    alloc: Global,
    layout: &Layout,
    decls: &Decls,
    drivers: &[Driver],
    latched: &[Bits],
) -> Result<Option<(Text, Pos)>, Memory>
    requires layout { IsLayoutOf decls.now drivers.now layout.now }
    requires sets { AreSets decls.now (spec.latched_by decls.now) latched.now drivers.now }
    ensures { IfOk result (λ found. found ≡ spec.latch decls.now drivers.now) }
{
    let all = union_of(alloc, latched)?;
    let names = layout.names(alloc, &all)?;
    Ok(first_named(alloc, layout, decls, drivers, &names)?)
}

/// The first name with a blocking assignment in a clocked block, whatever this reaches of it, of which a bit is read
/// outside of the block, with the earliest place of its drivers.
pub fn blocking_shared(
    alloc: Global,
    layout: &Layout,
    decls: &Decls,
    drivers: &[Driver],
) -> Result<Option<(Text, Pos)>, Memory>
    requires { IsLayoutOf decls.now drivers.now layout.now }
    ensures { IfOk result (λ found. found ≡ spec.blocking_shared decls.now drivers.now) }
{
    let reads = read_rows(alloc, layout)?;
    let writes = name_rows(alloc, layout, Which::Clocked, AssignKind::Blocking)?;
    let crossing = crossing_of(alloc, reads.as_slice(), writes.as_slice())?;
    Ok(first_named(alloc, layout, decls, drivers, &crossing.both)?)
}

/// The first name with blocking and nonblocking assignments, whatever these reach of it, or with a nonblocking one in a
/// combinational block, with the earliest place of its drivers.
pub fn mixed(
    alloc: Global,
    layout: &Layout,
    decls: &Decls,
    drivers: &[Driver],
) -> Result<Option<(Text, Pos)>, Memory>
    requires { IsLayoutOf decls.now drivers.now layout.now }
    ensures { IfOk result (λ found. found ≡ spec.mixed decls.now drivers.now) }
{
    let now = names_of(alloc, layout, Which::All, AssignKind::Blocking)?;
    let later = names_of(alloc, layout, Which::All, AssignKind::Nonblocking)?;
    let waiting = names_of(alloc, layout, Which::Settled, AssignKind::Nonblocking)?;
    let both = now.shared_with(&later)?;
    let marked = both.with(&waiting)?;
    Ok(first_named(alloc, layout, decls, drivers, &marked)?)
}
