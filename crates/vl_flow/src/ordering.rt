ghost use Rattle.std.specs.Prelude.{◌≡◌, IfErr, IfOk};
ghost use Rattle.vl_flow.specs.Analyses.{IsAnalysisOf};
ghost use Rattle.vl_flow.specs.Faults.{Answers, IsAnswer, IsFault};
ghost use Rattle.vl_flow.specs.declared.fault.FlowFault.{FlowFault};
ghost use Rattle.vl_flow_spec.specs.Sequence.{IsSequence};

use crate::analysis::{Analysis, analyzed};
use crate::fault::FlowFault;
use crate::later::later_fault;
use crate::ordered::Ordered;
use fv_text::List;
use std::alloc::Global;
use vl_flow_order::{Found, sequence_of};
use vl_flow_spec::order_law::an_order_has_no_loop;
use vl_flow_weight::weight_of;
use vl_mean::Flat;

/// The design with its order and its weight, where none of the refusals 2 to 6 is there.
fn judged(
    alloc: Global,
    flat: Flat,
    analysis: &Analysis,
    sequence: List<u32>,
) -> Result<Ordered, FlowFault>
    requires analysis { IsAnalysisOf flat.decls flat.drivers analysis.now }
    requires in_order { IsSequence flat.decls flat.drivers sequence }
    ensures same { IfOk result (λ ordered. ordered.flat ≡ flat) }
    ensures refused { IfErr result (IsAnswer flat.decls flat.drivers) }
    ensures each_fault { (fault : FlowFault) → IsFault flat.decls flat.drivers fault → Answers result fault }
{
    an_order_has_no_loop();
    let drivers = flat.drivers.as_slice();
    if let Some(fault) = later_fault(alloc, analysis, &flat.decls, drivers)? {
        return Err(fault);
    }
    let weight = weight_of(alloc, &flat)?;
    Ok(Ordered {
        flat,
        sequence,
        weight,
    })
}

/// The design with its order and its weight, or the first of the refusals 1 to 6 that is there. Time is about linear
/// in the design's tree, in its names' words and in the pairs of drivers of which one reads a name that the other
/// assigns.
pub fn order(alloc: Global, flat: Flat) -> Result<Ordered, FlowFault>
    ensures same { IfOk result (λ ordered. ordered.flat ≡ flat) }
    ensures refused { IfErr result (IsAnswer flat.decls flat.drivers) }
    ensures each_fault { (fault : FlowFault) → IsFault flat.decls flat.drivers fault → Answers result fault }
{
    let analysis = analyzed(alloc, &flat)?;
    let groups = &analysis.layout.groups;
    let footprints = analysis.layout.footprints.as_slice();
    match sequence_of(alloc, groups, footprints, flat.drivers.as_slice())? {
        Found::Loop(places) => Err(FlowFault::Loop(places)),
        Found::InOrder(sequence) => judged(alloc, flat, &analysis, sequence),
    }
}
