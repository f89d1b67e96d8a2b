ghost use Rattle.std.specs.Prelude.{◌≡◌, ◌&&◌, ◌<◌, ◌++◌, ◌∷◌, [], length, ℕ, List, IfOk, OnOk, take};
ghost use Rattle.fv_bit_sets.specs.Cells.{has};
ghost use Rattle.vl_flow_check.specs.Layouts.{IsLayoutOf, Marks};
ghost use Rattle.vl_flow_check.specs.Rows.{AreNameRows, picked, picks, some_test};
ghost use Rattle.vl_mean.specs.declared.driver.Driver.{Driver};
ghost use Rattle.vl_flow_effects.specs.Assigning.{set_of};
ghost use Rattle.vl_flow_spec.specs.Refusals.{has_bit};
ghost use Rattle.vl_flow_spec.specs.Drivers.{needed_by};
ghost use Rattle.vl_size.specs.declared.decl.Decl.{Decl};

use crate::layout::Layout;
use crate::which::Which;
use fv_bit_sets::Bits;
use fv_text::Memory;
use std::alloc::Global;
use vl_flow_effects::Assigned;
use vl_flow_order::union_of;
use vl_tree::AssignKind;

fn push(rows: &mut Vec<Bits>, row: Bits) -> Result<(), Memory>
    ensures { OnOk result (rows.new.items ≡ rows.old.items ++ row ∷ []) }
{
    if rows.push(row).is_err() {
        return Err(Memory);
    }
    Ok(())
}

/// The names that a driver assigns by assignments of the kind.
fn names_by(alloc: Global, assigned: &Assigned, kind: AssignKind) -> Result<Bits, Memory>
    ensures { IfOk result (λ made. (c i : ℕ) → has made c i ≡ has (set_of assigned.now kind) c i) }
{
    let none = Bits::none(alloc);
    match kind {
        AssignKind::Blocking => Ok(assigned.blocking.with(&none)?),
        AssignKind::Nonblocking => Ok(assigned.nonblocking.with(&none)?),
    }
}

/// The same where the driver counts; else none.
fn row_of(
    alloc: Global,
    counts: bool,
    assigned: &Assigned,
    kind: AssignKind,
) -> Result<Bits, Memory>
    ensures { IfOk result (λ made. (c i : ℕ) → has made c i ≡ (counts && has (set_of assigned.now kind) c i)) }
{
    if counts {
        return Ok(names_by(alloc, assigned, kind)?);
    }
    Ok(Bits::none(alloc))
}

/// For each driver the names that it assigns by assignments of the kind; none for a driver that doesn't count.
pub(crate) fn name_rows(
    alloc: Global,
    layout: &Layout,
    which: Which,
    kind: AssignKind,
) -> Result<Vec<Bits>, Memory>
    requires { length layout.now.footprints ≡ length layout.now.assigned }
    ensures { IfOk result (λ rows. (ds : List Decl) (drivers : List Driver) → IsLayoutOf ds drivers layout.now
        → AreNameRows ds (picked which kind) rows.items drivers) }
{
    let footprints = layout.footprints.as_slice();
    let assigned = layout.assigned.as_slice();
    let mut rows = Vec::new(alloc);
    for at in 0..assigned.len() {
        let counts = which.picks(footprints[at].is_clocked);
        push(&mut rows, row_of(alloc, counts, &assigned[at], kind)?)?;
    }
    Ok(rows)
}

/// The names that some driver that counts assigns by assignments of the kind.
pub(crate) fn names_of(
    alloc: Global,
    layout: &Layout,
    which: Which,
    kind: AssignKind,
) -> Result<Bits, Memory>
    requires { length layout.now.footprints ≡ length layout.now.assigned }
    ensures { IfOk result (λ made. (ds : List Decl) (drivers : List Driver) → IsLayoutOf ds drivers layout.now
        → Marks ds made (some_test (picked which kind) drivers)) }
{
    let rows = name_rows(alloc, layout, which, kind)?;
    Ok(union_of(alloc, rows.as_slice())?)
}

/// For each driver the names that it reads.
pub(crate) fn read_rows(alloc: Global, layout: &Layout) -> Result<Vec<Bits>, Memory>
    ensures { IfOk result (λ rows. (ds : List Decl) (drivers : List Driver) → IsLayoutOf ds drivers layout.now
        → AreNameRows ds (λ x. has_bit (needed_by ds x.what)) rows.items drivers) }
{
    let footprints = layout.footprints.as_slice();
    let mut rows = Vec::new(alloc);
    for footprint in footprints {
        push(&mut rows, layout.names(alloc, &footprint.needs)?)?;
    }
    Ok(rows)
}
