//! The reports of refusals.

ghost use Rattle.std.specs.Prelude.{◌≡◌, IfOk, false};
ghost use Rattle.rvf_core.specs.Certificate.{one_line};
ghost use Rattle.rvf_core.specs.Checks as checks;
ghost use Rattle.rvf_core.specs.Steps as steps;
ghost use Rattle.rvf_report.specs.Lines as lines;

use crate::report::Report;
use fv_text::Memory;
use rvf_case::Refusal;
use rvf_report::{Status, refusal_line};
use std::alloc::Global;

/// The status of a refusal.
fn refused_status(refusal: &Refusal) -> Status
    ensures { result ≡ checks.refused_status refusal.now }
{
    match refusal {
        Refusal::Absent(_) => Status::Absent,
        Refusal::Unread(_) => Status::ReadFault,
        Refusal::Config(_) => Status::Config,
        Refusal::NoCheck(_) => Status::Refused,
        Refusal::Source(_, _) => Status::Source,
        Refusal::Heavy(_, _) => Status::Heavy,
        Refusal::Memory => Status::Memory,
    }
}

/// No memory was left.
fn is_memory(refusal: &Refusal) -> bool
    ensures { result ≡ steps.is_memory refusal.now }
{
    matches!(refusal, Refusal::Memory)
}

/// A refusal's status with its line. Want of memory has no report.
pub(crate) fn refused(alloc: Global, refusal: &Refusal) -> Result<Report, Memory>
    ensures report { IfOk result (λ report. report
        ≡ one_line (checks.refused_status refusal.now) (lines.refusal_line refusal.now)) }
    ensures some { IfOk result (λ report. steps.is_memory refusal.now ≡ false) }
{
    if is_memory(refusal) {
        return Err(Memory);
    }
    let line = refusal_line(alloc, refusal)?;
    Report::of_line(alloc, refused_status(refusal), line)
}
