//! From a design in order to its net with the port.

ghost use Rattle.std.specs.Prelude.{◌≡◌, ◌<◌, ◌^◌, length};
ghost use Rattle.vl_lower_cell_laws.specs.Few.{AreFew};
ghost use Rattle.vl_mean.specs.FlatParts.{flat_parts};
ghost use Rattle.vl_lower_spec.specs.Evaluations.{IsLowered};
ghost use Rattle.rvf_load.specs.Stages as stages;
ghost use Rattle.rvf_load.specs.Stages.{IsNetted, IsWeighed};

use crate::fault::LoadFault;
use crate::heavy::too_heavy;
use crate::loaded::Loaded;
use ck_design::design_law::bound_nets_are_loaded;
use ck_design::names_law::names_of_traces_differ;
use rv_table::Opts;
use rvfi_port::{PortFault, Wants, bind};
use std::alloc::Global;
use vl_flow::Ordered;
use vl_lower::{Lowered, lower};

fn of_port(fault: PortFault) -> LoadFault
    ensures { result ≡ stages.of_port fault }
{
    match fault {
        PortFault::Memory => LoadFault::Memory,
        fault => LoadFault::Port(fault),
    }
}

/// The net of the design with its port bound.
fn with_port(
    alloc: Global,
    ordered: &Ordered,
    lowered: Lowered,
    channels: u32,
    wants: Wants,
    opts: Opts,
) -> Result<Loaded, LoadFault>
    requires lowered { IsLowered (flat_parts ordered.now.flat) lowered.net lowered.names }
    requires few { AreFew lowered.net }
    ensures { IsNetted ordered.now channels wants opts result }
{
    bound_nets_are_loaded();
    names_of_traces_differ();
    let _count = ordered.flat.decls.len();
    let Lowered { mut net, names } = lowered;
    let _old = net.nodes();
    match bind(alloc, &mut net, &names, channels, wants) {
        Ok(port) => {
            let _new = net.nodes();
            Ok(Loaded {
                net,
                names,
                port,
                opts,
                weight: ordered.weight,
            })
        }
        Err(fault) => Err(of_port(fault)),
    }
}

/// The net of a design in order, with its port.
fn netted(
    alloc: Global,
    ordered: &Ordered,
    channels: u32,
    wants: Wants,
    opts: Opts,
) -> Result<Loaded, LoadFault>
    ensures { IsNetted ordered.now channels wants opts result }
{
    let lowered = lower(alloc, ordered)?;
    with_port(alloc, ordered, lowered, channels, wants, opts)
}

/// The same, unless the design is too heavy for one of the factors.
pub(crate) fn weighed(
    alloc: Global,
    ordered: &Ordered,
    channels: u32,
    wants: Wants,
    opts: Opts,
    factors: &[u32],
) -> Result<Loaded, LoadFault>
    requires { length factors.now < 2 ^ 32 }
    ensures { IsWeighed factors.now ordered.now channels wants opts result }
{
    match too_heavy(ordered.weight, factors) {
        Some((place, product)) => Err(LoadFault::Heavy(place, product)),
        None => netted(alloc, ordered, channels, wants, opts),
    }
}
