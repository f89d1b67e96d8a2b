//! Reports delivered.

ghost use Rattle.std.specs.Prelude.{◌≡◌, ◌≤◌};
ghost use Rattle.rvf_core.specs.Puts.{Puts};
ghost use Rattle.rvf_report.specs.Status.{UnlessBroken, ends};
ghost use Rattle.rvf_report.specs.Outcome.{IsQuiet, outside};

use crate::report::Report;
use fv_base::{Files, Out, OutFault};
use fv_text::Memory;
use rvf_report::{Status, deliver};
use std::alloc::Global;

/// The status, where its report was delivered; else what took its place.
fn ended(delivered: Result<(), OutFault>, status: Status) -> Status
    ensures { result ≡ ends delivered status }
{
    match delivered {
        Ok(()) => status,
        Err(OutFault::Failed) => Status::WriteFault,
        Err(OutFault::Memory) => Status::Memory,
    }
}

/// Delivers a report, and answers how that ended.
pub(crate) fn put_report<F: Files, O: Out>(
    alloc: Global,
    report: Result<Report, Memory>,
    files: &mut F,
    out: &mut O,
) -> Status
    ensures puts { Puts report result
        (outside (F.state files.old) (O.state out.old)) (outside (F.state files.new) (O.state out.new)) }
    ensures unheard { (F.state files.new).heard ≡ (F.state files.old).heard }
    ensures misses_kept { (F.state files.new).misses ≡ (F.state files.old).misses }
    ensures faults_grow { (F.state files.old).faults ≤ (F.state files.new).faults }
    ensures quiet { UnlessBroken result
        (IsQuiet (outside (F.state files.old) (O.state out.old)) (outside (F.state files.new) (O.state out.new))) }
{
    match report {
        Ok(report) => ended(
            deliver(alloc, report.deliveries.as_slice(), files, out),
            report.status,
        ),
        Err(Memory) => Status::Memory,
    }
}
