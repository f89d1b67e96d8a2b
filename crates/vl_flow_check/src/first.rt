ghost use Rattle.std.specs.Prelude.{◌≡◌, ◌||◌, ◌<◌, Bool, List, Some, None, IfOk, length, slice_get};
ghost use Rattle.std.specs.Prelude.{if◌then◌else◌};
ghost use Rattle.fv_bit_sets.specs.Cells.{has};
ghost use Rattle.vl_flow_check.specs.Layouts.{IsLayoutOf, Marks};
ghost use Rattle.vl_flow_effects.specs.Assigning.{AreAssignedBy};
ghost use Rattle.vl_flow_spec.specs.Paths.{any_kind};
ghost use Rattle.vl_flow_spec.specs.Refusals.{assigns_to, first_of_names, named_if, place_of, with_name};
ghost use Rattle.vl_size.specs.declared.decl.Decl.{Decl};

use crate::layout::Layout;
use crate::name::name_of;
use fv_bit_sets::Bits;
use fv_text::{Memory, Pos, Text};
use std::alloc::Global;
use vl_flow_effects::Assigned;
use vl_mean::Driver;
use vl_size::Decls;
use vl_size::earlier::earlier_place;

/// Whether the name at the place is one of the set.
fn has_name(names: &Bits, place: usize) -> bool
    ensures { result ≡ has names.now place 0 }
{
    names.mask(place as u64) & 1 == 1
}

/// Whether the name at the place is assigned, by either kind of assignment.
fn is_assigned(assigned: &Assigned, place: usize) -> bool
    ensures { result ≡ (has assigned.now.blocking place 0 || has assigned.now.nonblocking place 0) }
{
    has_name(&assigned.blocking, place) || has_name(&assigned.nonblocking, place)
}

/// The driver's place, where it assigns the name at the place.
fn place_if(driver: &Driver, assigned: &Assigned, place: usize) -> Option<Pos>
    ensures { (ds : List Decl) (d : Decl) → AreAssignedBy ds assigned.now driver.now.what
        → slice_get ds place ≡ Some d
        → result ≡ (if assigns_to any_kind driver.now.what d then Some driver.now.pos else None) }
{
    if is_assigned(assigned, place) {
        return Some(driver.pos);
    }
    None
}

/// The earliest place of a driver that assigns the name at the place.
fn driver_place(layout: &Layout, drivers: &[Driver], place: usize) -> Option<Pos>
    requires { length layout.now.assigned ≡ length drivers.now }
    ensures { (ds : List Decl) (d : Decl) → IsLayoutOf ds drivers.now layout.now
        → slice_get ds place ≡ Some d → result ≡ place_of drivers.now d }
{
    let assigned = layout.assigned.as_slice();
    let mut found = None;
    let mut rest = drivers.len();
    'back: while rest > 0 {
        rest -= 1;
        let one = place_if(&drivers[rest], &assigned[rest], place);
        found = earlier_place(one, found);
    }
    found
}

/// The name at a place, with the earliest place of its drivers.
fn name_at(
    alloc: Global,
    layout: &Layout,
    decls: &Decls,
    drivers: &[Driver],
    place: usize,
) -> Result<Option<(Text, Pos)>, Memory>
    requires layout { IsLayoutOf decls.now drivers.now layout.now }
    requires within { place < length decls.now }
    ensures { IfOk result (λ found. (d : Decl) → slice_get decls.now place ≡ Some d
        → found ≡ with_name d.name (place_of drivers.now d)) }
{
    let Some(pos) = driver_place(layout, drivers, place) else {
        return Ok(None);
    };
    let name = name_of(alloc, decls, place)?;
    Ok(Some((name, pos)))
}

/// The first name that is marked, with the earliest place of its drivers; one without drivers doesn't count.
pub(crate) fn first_named(
    alloc: Global,
    layout: &Layout,
    decls: &Decls,
    drivers: &[Driver],
    marked: &Bits,
) -> Result<Option<(Text, Pos)>, Memory>
    requires layout { IsLayoutOf decls.now drivers.now layout.now }
    requires marked { (test : Decl → Bool) × Marks decls.now marked.now test }
    ensures { IfOk result (λ found. (test : Decl → Bool) → Marks decls.now marked.now test
        → found ≡ first_of_names (λ d. named_if drivers.now d (test d)) decls.now) }
{
    let _count = decls.len();
    let mut next = marked.first_from(0);
    while let Some(place) = next {
        let found = name_at(alloc, layout, decls, drivers, place as usize)?;
        if found.is_some() {
            return Ok(found);
        }
        next = marked.first_from(place + 1);
    }
    Ok(None)
}
