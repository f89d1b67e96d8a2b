ghost use Rattle.std.specs.Prelude.{◌≡◌, ◌++◌, ◌∷◌, [], ◌<◌, ◌≤◌, ◌^◌, List, length, IfOk, OnOk};
ghost use Rattle.vl_size.specs.declared.decl.Decl.{Decl};
ghost use Rattle.vl_flow_order.specs.Footprints.{AreFootprintsOf};
ghost use Rattle.vl_flow_order.specs.Found.{Tells};
ghost use Rattle.vl_flow_order.specs.Numbers.{AreNumbers, settled_of};

use crate::footprint::Footprint;
use crate::found::Found;
use crate::loops::loop_of;
use crate::reads_groups::Groups;
use crate::rows::reading_graph;
use fv_graph::{Walked, walk};
use fv_text::{List, Memory};
use std::alloc::Global;
use vl_mean::Driver;

fn keep(kept: &mut List<u32>, footprints: &[Footprint], number: u32) -> Result<(), Memory>
    requires { number < length footprints.now }
    ensures { OnOk result (kept.new ≡ kept.old ++ settled_of footprints.now (number ∷ [])) }
{
    let is_clocked = footprints[number as usize].is_clocked;
    if is_clocked {
        return Ok(());
    }
    kept.push(number)?;
    Ok(())
}

/// Those of the numbers whose drivers aren't clocked, in their order.
fn settled(alloc: Global, footprints: &[Footprint], numbers: &[u32]) -> Result<List<u32>, Memory>
    requires { AreNumbers (length footprints.now) numbers.now }
    ensures { IfOk result (λ kept. kept ≡ settled_of footprints.now numbers.now) }
{
    let mut kept = List::new(alloc);
    for number in numbers {
        keep(&mut kept, footprints, *number)?;
    }
    Ok(kept)
}

/// The drivers that aren't clocked in an order in which each stands behind all that drive what it reads, or a loop of
/// them. Time is about linear in what is read, in the pairs of drivers that read and assign one name.
pub fn sequence_of(
    alloc: Global,
    groups: &Groups,
    footprints: &[Footprint],
    drivers: &[Driver],
) -> Result<Found, Memory>
    requires size { length footprints.now ≡ length drivers.now }
    requires few { length footprints.now ≤ 2 ^ 32 }
    ensures { IfOk result (λ found. (ds : List Decl) → AreFootprintsOf ds groups.now footprints.now drivers.now
        → Tells ds drivers.now found) }
{
    let graph = reading_graph(alloc, groups, footprints)?;
    match walk(alloc, graph.as_slice())? {
        Walked::Order(order) => {
            Ok(Found::InOrder(settled(alloc, footprints, order.as_slice())?))
        }
        Walked::Circle(circle) => Ok(Found::Loop(loop_of(alloc, drivers, circle.as_slice())?)),
    }
}
