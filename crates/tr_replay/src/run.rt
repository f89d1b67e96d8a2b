//! A run, cycle by cycle.

ghost use Rattle.std.specs.Prelude.{◌≡◌, ◌+◌, length, IfOk, OnOk};
ghost use Rattle.wn_net.specs.Given.{IsGiven, given};
ghost use Rattle.wn_net.specs.Names.{AreNamesOf};
ghost use Rattle.wn_net.specs.Next.{next_state};
ghost use Rattle.wn_run.specs.Runs.{AreChoicesOf, inputs_at, start_of};
ghost use Rattle.tr_replay.specs.Traces as traces;

use crate::chosen::{Chosen, inputs_of, row_at};
use crate::names::trace_names;
use crate::start::start_of;
use crate::values::name_values;
use fv_text::{List, Memory, Trace};
use std::alloc::Global;
use wn_net::{Names, Net, State};
use wn_run::cycles_are_of_the_net;

/// The inputs of a cycle.
fn cycle_inputs(alloc: Global, net: &Net, chosen: &Chosen, cycle: u64) -> Result<Vec<u128>, Memory>
    ensures { IfOk result (λ made. made.items ≡ inputs_at net.now (traces.choices_of chosen.now) cycle) }
{
    let each = row_at(chosen.each_cycle.as_slice(), cycle as usize);
    inputs_of(alloc, net.inputs(), cycle, each, chosen.once.as_slice())
}

/// The values of the names in a cycle; the state moves on.
fn run_cycle(
    alloc: Global,
    net: &Net,
    names: &Names,
    inputs: &[u128],
    state: &mut State,
    values: &mut [u128],
) -> Result<List<u128>, Memory>
    requires given { IsGiven net.now (given inputs.now state.old) }
    requires room { length values.old ≡ length net.now.nodes }
    ensures shows { IfOk result (λ made. made
        ≡ traces.name_values net.now (given inputs.now state.old) names.now.list) }
    ensures next { OnOk result (state.new ≡ next_state net.now (given inputs.now state.old)) }
{
    net.eval(inputs, state, values);
    let made = name_values(alloc, names.list.as_slice(), values, state)?;
    net.step(inputs, state, values);
    Ok(made)
}

fn zeros(alloc: Global, count: usize) -> Result<Vec<u128>, Memory>
    ensures { IfOk result (λ made. length made.items ≡ count) }
{
    let mut made = Vec::new(alloc);
    made.resize(count, 0)?;
    Ok(made)
}

/// The values of the names in the cycles up to this one.
fn run_cycles(
    alloc: Global,
    net: &Net,
    names: &Names,
    chosen: &Chosen,
    cycle: u32,
) -> Result<List<List<u128>>, Memory>
    requires { AreChoicesOf net.now (traces.choices_of chosen.now) }
    ensures { IfOk result (λ made. made
        ≡ traces.first_cycles net.now names.now.list (traces.cycle_of net.now (traces.choices_of chosen.now))
        (cycle + 1)) }
{
    let _ = net.nodes();
    cycles_are_of_the_net();
    let mut state = start_of(alloc, net, chosen)?;
    let mut values = zeros(alloc, net.nodes().len())?;
    let mut made = List::new(alloc);
    for k in 0..u64::from(cycle) + 1 {
        let inputs = cycle_inputs(alloc, net, chosen, k)?;
        let row = run_cycle(
            alloc,
            net,
            names,
            inputs.as_slice(),
            &mut state,
            values.as_mut_slice(),
        )?;
        made.push(row)?;
    }
    Ok(made)
}

/// The trace of the run with these choices up to a cycle: the names of a design in the order of their declarations, in
/// place of a memory its words from the left bound on, with what they have in each cycle.
pub fn replay(
    alloc: Global,
    net: &Net,
    names: &Names,
    chosen: &Chosen,
    cycle: u32,
) -> Result<Trace, Memory>
    requires names { AreNamesOf net.now names.now }
    requires chosen { AreChoicesOf net.now (traces.choices_of chosen.now) }
    ensures run { IfOk result (λ trace. trace
        ≡ traces.trace_of net.now names.now (traces.choices_of chosen.now) cycle) }
{
    let cycles = run_cycles(alloc, net, names, chosen, cycle)?;
    let names = trace_names(alloc, net, names.list.as_slice())?;
    Ok(Trace { names, cycles })
}
