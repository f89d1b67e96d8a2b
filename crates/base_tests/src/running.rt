//! Runs stated as a caller does: the inputs of a cycle by their kinds, two cycles of a net, and the bits of a name.

ghost use Rattle.std.specs.Prelude.{◌≡◌, ℕ, ◌==◌, ◌<◌, if◌then◌else◌, length, slice_index, IfOk};
ghost use Rattle.wn_net.specs.Net.{values_of};
ghost use Rattle.wn_net.specs.Given.{AreInputsOf, IsStateOf};
ghost use Rattle.wn_run.specs.Runs.{by_kind, inputs_from, reset_at, state_at, cycle_at};

use fv_text::{List, Memory};
use std::alloc::Global;
use wn_net::{InputKind, Net, Spot, State};

/// The number of an input in a cycle.
fn number_of(kind: InputKind, cycle: u64, each: u128, once: u128) -> u128
    ensures { result ≡ by_kind each once (reset_at cycle) kind }
{
    match kind {
        InputKind::EachCycle => each,
        InputKind::Once => once,
        InputKind::Reset => { if cycle == 0 { 1 } else { 0 } }
    }
}

/// Puts the numbers of the inputs in a cycle, of which each has one for this cycle and one for all.
pub fn put_inputs(net: &Net, cycle: u64, each: &[u128], once: &[u128], inputs: &mut [u128])
    requires each { length each.now ≡ length net.now.inputs }
    requires once { length once.now ≡ length net.now.inputs }
    requires room { length inputs.old ≡ length net.now.inputs }
    ensures { inputs.new ≡ inputs_from (slice_index each.now) (slice_index once.now)
        (reset_at cycle) 0 net.now.inputs }
{
    for (index, input) in net.inputs().iter().enumerate() {
        inputs[index] = number_of(input.kind, cycle, each[index], once[index]);
    }
}

/// Two cycles from a state; the values are those of the second.
pub fn run_twice(net: &Net, first: &[u128], second: &[u128], state: &mut State, values: &mut [u128])
    requires first { AreInputsOf net.now first.now }
    requires second { AreInputsOf net.now second.now }
    requires start { IsStateOf net.now state.old }
    requires room { length values.old ≡ length net.now.nodes }
    ensures state { state.new ≡ state_at net.now (λ k. if k == 0 then first.now else second.now) state.old 2 }
    ensures values { values.new ≡ values_of net.now
        (cycle_at net.now (λ k. if k == 0 then first.now else second.now) state.old 1) }
{
    net.step(first, state, values);
    net.step(second, state, values);
}

/// The bits of a name that an input or register of its width is, each at its own place.
pub fn whole_spot(alloc: Global, name: u32, width: u32) -> Result<Spot, Memory>
    ensures name { IfOk result (λ s. s.name ≡ name) }
    ensures each { IfOk result (λ s. length s.bits ≡ width) }
    ensures bits { IfOk result (λ s. (j : ℕ) → j < width → slice_index s.bits j ≡ j) }
{
    let mut bits = List::new(alloc);
    for bit in 0..width {
        bits.push(bit)?;
    }
    Ok(Spot { name, bits })
}
