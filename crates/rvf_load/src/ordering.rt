//! From modules to their design without hierarchy, in order.

ghost use Rattle.std.specs.Prelude.{◌≡◌, All, IfOk};
ghost use Rattle.vl_tree.specs.WellFormed.{IsModule};
ghost use Rattle.rvf_load.specs.Loads as loads;
ghost use Rattle.rvf_load.specs.Stages as stages;
ghost use Rattle.rvf_load.specs.Stages.{IsInOrder, IsOrdering};

use crate::fault::LoadFault;
use fv_text::{Memory, Text};
use std::alloc::Global;
use vl_elab::{Reason, elaborate};
use vl_flow::{FlowFault, Ordered, order};
use vl_mean::Flat;
use vl_tree::Module;

fn of_elab(reason: Reason) -> LoadFault
    ensures { result ≡ stages.of_elab reason }
{
    match reason {
        Reason::Refused(fault) => LoadFault::Elab(fault),
        Reason::Memory => LoadFault::Memory,
    }
}

fn of_flow(fault: FlowFault) -> LoadFault
    ensures { result ≡ stages.of_flow fault }
{
    match fault {
        FlowFault::Memory => LoadFault::Memory,
        fault => LoadFault::Flow(fault),
    }
}

/// The name of the top module.
fn top(alloc: Global) -> Result<Text, Memory>
    ensures { IfOk result (λ name. name ≡ loads.top) }
{
    Text::from_bytes(alloc, b"rvfi_wrapper")
}

/// A design without hierarchy in order.
fn ordered(alloc: Global, flat: Flat) -> Result<Ordered, LoadFault>
    ensures { IsOrdering flat result }
{
    match order(alloc, flat) {
        Ok(ordered) => Ok(ordered),
        Err(fault) => Err(of_flow(fault)),
    }
}

/// The design of modules in order, or the first of the two parts that refuses it.
pub(crate) fn in_order(alloc: Global, modules: &[Module]) -> Result<Ordered, LoadFault>
    requires { All IsModule modules.now }
    ensures { IsInOrder modules.now result }
{
    let top = top(alloc)?;
    match elaborate(alloc, modules, &top) {
        Ok(flat) => ordered(alloc, flat),
        Err(reason) => Err(of_elab(reason)),
    }
}
