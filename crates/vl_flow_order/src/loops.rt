ghost use Rattle.std.specs.Prelude.{◌≡◌, ◌+◌, ◌<◌, ℕ, List, Some, IfOk, length, slice_get};
ghost use Rattle.fv_graph.specs.Graph.{IsCircle, StandOnce};
ghost use Rattle.vl_mean.specs.declared.driver.Driver.{Driver};
ghost use Rattle.vl_flow_order.specs.Numbers.{AreNumbers, IsEarliest, IsTurned, numbered, places};

use fv_graph::circle_from;
use fv_text::{List, Memory, Pos};
use std::alloc::Global;
use vl_mean::Driver;
use vl_size::earlier::is_earlier;

/// The place of the driver whose number stands there.
fn place_at(drivers: &[Driver], numbers: &[u32], at: usize) -> Pos
    requires within { at < length numbers.now }
    requires known { AreNumbers (length drivers.now) numbers.now }
    ensures { (n : ℕ) (x : Driver) → slice_get numbers.now at ≡ Some n → slice_get drivers.now n ≡ Some x
        → result ≡ x.pos }
{
    let number = numbers[at];
    drivers[number as usize].pos
}

/// The better one of two places in the list, of which the first was the best so far.
fn better(drivers: &[Driver], numbers: &[u32], best: usize, at: usize) -> usize
    requires best { best < length numbers.now }
    requires at { at < length numbers.now }
    requires known { AreNumbers (length drivers.now) numbers.now }
    ensures within { result < length numbers.now }
    ensures earliest { IsEarliest drivers.now numbers.now at best
        → IsEarliest drivers.now numbers.now (at + 1) result }
{
    let place = place_at(drivers, numbers, at);
    if is_earlier(place, place_at(drivers, numbers, best)) {
        return at;
    }
    best
}

/// Where the number of a driver with the earliest place stands.
fn earliest(drivers: &[Driver], numbers: &[u32]) -> usize
    requires some { 0 < length numbers.now }
    requires known { AreNumbers (length drivers.now) numbers.now }
    ensures within { result < length numbers.now }
    ensures earliest { IsEarliest drivers.now numbers.now (length numbers.now) result }
{
    let mut best = 0;
    for at in 0..numbers.len() {
        best = better(drivers, numbers, best, at);
    }
    best
}

/// The circle from the driver with the earliest place on.
fn turned(alloc: Global, drivers: &[Driver], circle: &[u32]) -> Result<List<u32>, Memory>
    requires some { 0 < length circle.now }
    requires known { AreNumbers (length drivers.now) circle.now }
    ensures turned { IfOk result (IsTurned drivers.now circle.now) }
    ensures closed { IfOk result (λ found. (graph : List (List ℕ)) → IsCircle graph circle.now
        → IsCircle graph found) }
    ensures once { IfOk result (λ found. StandOnce circle.now → StandOnce found) }
{
    Ok(circle_from(alloc, circle, earliest(drivers, circle))?)
}

/// The places of the drivers with these numbers.
fn places_of(alloc: Global, drivers: &[Driver], numbers: &[u32]) -> Result<List<Pos>, Memory>
    requires { AreNumbers (length drivers.now) numbers.now }
    ensures { IfOk result (λ found. found ≡ places (numbered drivers.now numbers.now)) }
{
    let mut found = List::new(alloc);
    for at in 0..numbers.len() {
        found.push(place_at(drivers, numbers, at))?;
    }
    Ok(found)
}

/// The places of a loop, from the earliest one on.
pub(crate) fn loop_of(
    alloc: Global,
    drivers: &[Driver],
    circle: &[u32],
) -> Result<List<Pos>, Memory>
    requires some { 0 < length circle.now }
    requires known { AreNumbers (length drivers.now) circle.now }
    ensures { IfOk result (λ found. (turned : List ℕ) × IsTurned drivers.now circle.now turned
        × ((graph : List (List ℕ)) → IsCircle graph circle.now → IsCircle graph turned)
        × (StandOnce circle.now → StandOnce turned)
        × (found ≡ places (numbered drivers.now turned))) }
{
    let numbers = turned(alloc, drivers, circle)?;
    Ok(places_of(alloc, drivers, numbers.as_slice())?)
}
