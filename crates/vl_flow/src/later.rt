ghost use Rattle.std.specs.Prelude.{◌≡◌, All, IfOk};
ghost use Rattle.vl_flow.specs.Analyses.{IsAnalysisOf};
ghost use Rattle.vl_flow.specs.Faults as spec;
ghost use Rattle.vl_mean.specs.FlatLaw.{IsDriver, IsKept};

use crate::analysis::Analysis;
use crate::fault::FlowFault;
use fv_text::Memory;
use std::alloc::Global;
use vl_flow_check::{blocking_shared, latch, mixed, two_drivers, undriven};
use vl_mean::Driver;
use vl_size::Decls;

/// The first of the refusals 2 to 6 that is there.
pub(crate) fn later_fault(
    alloc: Global,
    analysis: &Analysis,
    decls: &Decls,
    drivers: &[Driver],
) -> Result<Option<FlowFault>, Memory>
    requires analysis { IsAnalysisOf decls.now drivers.now analysis.now }
    requires kept { All IsKept decls.now }
    requires driven { All (λ x. IsDriver decls.now x.what) drivers.now }
    ensures { IfOk result (λ found. found ≡ spec.later_fault decls.now drivers.now) }
{
    let layout = &analysis.layout;
    if let Some((name, pos)) = latch(alloc, layout, decls, drivers, analysis.latched.as_slice())? {
        return Ok(Some(FlowFault::Latch(name, pos)));
    }
    if let Some((name, bit, first, second)) = two_drivers(
        alloc,
        layout,
        decls,
        drivers,
        &analysis.numbering,
    )? {
        return Ok(Some(FlowFault::TwoDrivers(name, bit, first, second)));
    }
    if let Some((name, bit)) = undriven(alloc, layout, decls)? {
        return Ok(Some(FlowFault::Undriven(name, bit)));
    }
    if let Some((name, pos)) = blocking_shared(alloc, layout, decls, drivers)? {
        return Ok(Some(FlowFault::BlockingShared(name, pos)));
    }
    if let Some((name, pos)) = mixed(alloc, layout, decls, drivers)? {
        return Ok(Some(FlowFault::Mixed(name, pos)));
    }
    Ok(None)
}
