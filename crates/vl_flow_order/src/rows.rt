ghost use Rattle.std.specs.Prelude.{◌≡◌, ◌<◌, ◌≤◌, ◌^◌, ℕ, length, IfOk, OnOk};
ghost use Rattle.fv_graph.specs.Graph.{Leads};
ghost use Rattle.vl_flow_order.specs.Buckets.{AreBuckets};
ghost use Rattle.vl_flow_order.specs.Reads.{AddsRead, AddsReader, AddsRow, AddsVisits, AreDrivers, IsReadingGraph};
ghost use Rattle.vl_flow_order.specs.Visits.{AreWithin};

use crate::buckets::{buckets_of, empty_rows};
use crate::edge::add_edge;
use crate::footprint::Footprint;
use crate::reads_groups::Groups;
use crate::visit::{Visit, visits_of};
use fv_bit_sets::Bits;
use fv_text::{List, Memory};
use std::alloc::Global;

/// Lets the reader lead to the driver where they have a bit in common in the visited group.
fn add_read(
    graph: &mut Vec<List<u32>>,
    reader: u32,
    needs: &Bits,
    footprints: &[Footprint],
    driver: u32,
    visit: Visit,
) -> Result<(), Memory>
    requires reader { reader < length graph.old.items }
    requires driver { driver < length footprints.now }
    ensures { OnOk result (AddsRead reader needs.now footprints.now driver visit graph.old.items
        graph.new.items) }
{
    if needs.meets(&footprints[driver as usize].drives, visit.first, visit.past) {
        add_edge(graph, reader, driver)?;
    }
    Ok(())
}

/// The same for each driver of the group.
fn add_row(
    graph: &mut Vec<List<u32>>,
    reader: u32,
    needs: &Bits,
    footprints: &[Footprint],
    row: &[u32],
    visit: Visit,
) -> Result<(), Memory>
    requires reader { reader < length graph.old.items }
    requires drivers { AreDrivers footprints.now row.now }
    ensures { OnOk result (AddsRow reader needs.now footprints.now row.now (length row.now) visit
        graph.old.items graph.new.items) }
{
    for driver in row {
        add_read(graph, reader, needs, footprints, *driver, visit)?;
    }
    Ok(())
}

/// The same for each group that is visited.
fn add_visits(
    graph: &mut Vec<List<u32>>,
    reader: u32,
    needs: &Bits,
    footprints: &[Footprint],
    buckets: &[List<u32>],
    visits: &[Visit],
) -> Result<(), Memory>
    requires reader { reader < length graph.old.items }
    requires drivers { (group j : ℕ) → Leads buckets.now group j → j < length footprints.now }
    requires groups { AreWithin (length buckets.now) visits.now }
    ensures { OnOk result (AddsVisits reader needs.now footprints.now buckets.now visits.now (length visits.now)
        graph.old.items graph.new.items) }
{
    for visit in visits {
        let row = buckets[visit.group as usize].as_slice();
        add_row(graph, reader, needs, footprints, row, *visit)?;
    }
    Ok(())
}

/// Lets the reader lead to all drivers that it reads from.
fn add_reader(
    alloc: Global,
    graph: &mut Vec<List<u32>>,
    reader: u32,
    groups: &Groups,
    footprints: &[Footprint],
    buckets: &[List<u32>],
) -> Result<(), Memory>
    requires size { length graph.old.items ≡ length footprints.now }
    requires reader { reader < length footprints.now }
    requires buckets { AreBuckets groups.now footprints.now (length footprints.now) buckets.now }
    ensures { OnOk result (AddsReader groups.now footprints.now reader graph.old.items graph.new.items) }
{
    let footprint = &footprints[reader as usize];
    if footprint.is_clocked {
        return Ok(());
    }
    let visits = visits_of(alloc, groups, &footprint.needs)?;
    add_visits(
        graph,
        reader,
        &footprint.needs,
        footprints,
        buckets,
        visits.as_slice(),
    )?;
    Ok(())
}

/// For each driver those that it reads from, clocked ones aside. Time is about linear in the runs of bits and in the
/// pairs of drivers that read and assign one group.
pub fn reading_graph(
    alloc: Global,
    groups: &Groups,
    footprints: &[Footprint],
) -> Result<Vec<List<u32>>, Memory>
    requires { length footprints.now ≤ 2 ^ 32 }
    ensures { IfOk result (λ graph. IsReadingGraph groups.now footprints.now graph.items) }
{
    let buckets = buckets_of(alloc, groups, footprints)?;
    let mut graph = empty_rows(alloc, footprints.len())?;
    for reader in 0..footprints.len() {
        add_reader(
            alloc,
            &mut graph,
            reader as u32,
            groups,
            footprints,
            buckets.as_slice(),
        )?;
    }
    Ok(graph)
}
