//! A check's monitor, stepped over a net that plays a run.

use crate::lawful::is_check;
use crate::port::{has_port, has_probe, net_of_inputs, port_of_inputs};
use crate::run::Run;
use anyhow::Result;
use ck_cfg::Check;
use ck_gen::monitor;
use fv_text::{List, Memory};
use rv_table::Opts;
use rvfi_port::Port;
use std::alloc::Global;
use wn_net::{Init, Net, NodeId, Reg, State};

/// What the monitor says of a run.
#[derive(Debug, Clone, Copy, PartialEq, Eq)]
pub(crate) enum Said {
    /// There is no monitor for this check.
    Nothing,
    /// The net or its numbers aren't as a monitor or a step wants them.
    NoNet,
    Fails,
    Holds,
}

/// What the check's monitor says in the cycle of the check.
pub(crate) fn monitored(alloc: Global, check: &Check, run: &Run, opts: Opts) -> Result<Said> {
    if !is_check(run.channels as usize, check) {
        return Ok(Said::Nothing);
    }
    let mut net = net_of_inputs(alloc, run.channels)?;
    let port = port_of_inputs(alloc, run.channels)?;
    let Some(node) = added(alloc, &mut net, &port, check, opts)? else {
        return Ok(Said::NoNet);
    };
    let Some(value) = value_at_last(alloc, &net, run, check.cycle, node)? else {
        return Ok(Said::NoNet);
    };
    Ok(if value == 0 { Said::Holds } else { Said::Fails })
}

/// The monitor's node; None where the net, the port or the check isn't as a monitor wants them.
fn added(
    alloc: Global,
    net: &mut Net,
    port: &Port,
    check: &Check,
    opts: Opts,
) -> Result<Option<NodeId>, Memory> {
    let channels = port.channels.len();
    let fits = is_check(channels, check)
        && channels <= 2
        && has_port(net, port)
        && has_probe(port, check.kind)
        && net.regs().len() <= 50_000_000;
    if !fits {
        return Ok(None);
    }
    let node = monitor(alloc, net, port, check, opts)?;
    Ok(Some(node))
}

/// What the registers begin with.
fn starts(alloc: Global, regs: &[Reg]) -> Result<List<u128>, Memory> {
    let mut numbers = List::new(alloc);
    for reg in regs {
        let number = match reg.init {
            Init::Known(number) => number,
            Init::Free => 0,
        };
        numbers.push(number)?;
    }
    Ok(numbers)
}

/// The value of the node in the cycle `last` of the run; None where its numbers aren't of the net.
pub(crate) fn value_at_last(
    alloc: Global,
    net: &Net,
    run: &Run,
    last: u32,
    node: NodeId,
) -> Result<Option<u128>, Memory> {
    let mut state = State {
        regs: starts(alloc, net.regs())?,
        mems: List::new(alloc),
    };
    for cycle in 0..last {
        let inputs = run.inputs(alloc, cycle, last)?;
        if !stepped(alloc, net, inputs.as_slice(), &mut state)? {
            return Ok(None);
        }
    }
    let inputs = run.inputs(alloc, last, last)?;
    value(alloc, net, inputs.as_slice(), &state, node)
}

/// Moves the state on by a cycle; false where the numbers aren't of the net.
fn stepped(alloc: Global, net: &Net, inputs: &[u128], state: &mut State) -> Result<bool, Memory> {
    if !net.admits(inputs, state) {
        return Ok(false);
    }
    let mut values = vec![in alloc; 0u128; net.nodes().len()]?;
    net.step(inputs, state, values.as_mut_slice());
    Ok(true)
}

/// The value of the node; None where the numbers aren't of the net, or the node isn't there.
fn value(
    alloc: Global,
    net: &Net,
    inputs: &[u128],
    state: &State,
    node: NodeId,
) -> Result<Option<u128>, Memory> {
    if !net.admits(inputs, state) {
        return Ok(None);
    }
    let mut values = vec![in alloc; 0u128; net.nodes().len()]?;
    net.eval(inputs, state, values.as_mut_slice());
    Ok(values.get(node as usize).copied())
}
