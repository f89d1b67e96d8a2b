ghost use Rattle.std.specs.Prelude.{◌≡◌, ◌≤◌, ◌^◌, length, IfOk, OnOk};
ghost use Rattle.vl_flow_order.specs.Buckets.{AddsDriver, AddsSettled, AreBuckets};
ghost use Rattle.vl_flow_order.specs.Edges.{HasNoEdges};
ghost use Rattle.vl_flow_order.specs.Visits.{AreWithin};

use crate::edge::add_edge;
use crate::footprint::Footprint;
use crate::reads_groups::Groups;
use crate::visit::{Visit, visits_of};
use fv_text::{List, Memory};
use std::alloc::Global;

/// So many nodes that lead nowhere.
pub(crate) fn empty_rows(alloc: Global, count: usize) -> Result<Vec<List<u32>>, Memory>
    ensures { IfOk result (λ rows. HasNoEdges count rows.items) }
{
    let mut rows = Vec::new(alloc);
    'rows: while rows.len() < count {
        rows.push(List::new(alloc))?;
    }
    Ok(rows)
}

/// Puts the driver beside the others of each group.
fn add_driver(buckets: &mut Vec<List<u32>>, visits: &[Visit], driver: u32) -> Result<(), Memory>
    requires { AreWithin (length buckets.old.items) visits.now }
    ensures { OnOk result (AddsDriver buckets.old.items visits.now (length visits.now) driver buckets.new.items) }
{
    for visit in visits {
        add_edge(buckets, visit.group, driver)?;
    }
    Ok(())
}

/// The same for the groups that it drives, unless it is clocked.
fn add_settled(
    alloc: Global,
    buckets: &mut Vec<List<u32>>,
    groups: &Groups,
    footprint: &Footprint,
    driver: u32,
) -> Result<(), Memory>
    requires { length buckets.old.items ≡ length groups.now.ends }
    ensures { OnOk result (AddsSettled groups.now footprint.now driver buckets.old.items buckets.new.items) }
{
    if footprint.is_clocked {
        return Ok(());
    }
    let visits = visits_of(alloc, groups, &footprint.drives)?;
    add_driver(buckets, visits.as_slice(), driver)?;
    Ok(())
}

/// For each group the drivers that aren't clocked and assign a bit of it.
pub(crate) fn buckets_of(
    alloc: Global,
    groups: &Groups,
    footprints: &[Footprint],
) -> Result<Vec<List<u32>>, Memory>
    requires { length footprints.now ≤ 2 ^ 32 }
    ensures { IfOk result (λ buckets. AreBuckets groups.now footprints.now (length footprints.now) buckets.items) }
{
    let mut buckets = empty_rows(alloc, groups.ends.len())?;
    for (driver, footprint) in footprints.iter().enumerate() {
        add_settled(alloc, &mut buckets, groups, footprint, driver as u32)?;
    }
    Ok(buckets)
}
