//! From the jobs of an inquiry to the end of a run.

ghost use Rattle.std.specs.Prelude.{◌≡◌, ◌+◌, ◌<◌, ◌≤◌, ◌^◌, IfOk};
ghost use Rattle.rvf_report.specs.Outcome.{IsQuiet, Outside, outside};
ghost use Rattle.rvf_report.specs.Reports.{Concludes};
ghost use Rattle.rvf_report.specs.Status.{UnlessBroken};
ghost use Rattle.rvf_report.specs.Steps.{Ends, Proceeds, Stands};

use crate::batch::answer_batch;
use crate::inquiry::Inquiry;
use crate::progress::{Progress, begin, deliver_answers, finish};
use crate::status::Status;
use fv_base::{Files, Out, OutFault};
use std::alloc::Global;
use std::thread::Threads;

/// Answers the jobs of an inquiry, and delivers what comes of each, in their order.
///
/// The jobs are answered in batches of so many, those of a batch beside each other, and a batch is delivered before the
/// next one is answered.
pub fn conclude<R: Threads + Sync, F: Files, O: Out, Q: Inquiry>(
    rt: &R,
    alloc: Global,
    inquiry: &Q,
    jobs: u32,
    files: &mut F,
    out: &mut O,
) -> Status
    requires ready { Q.can_work inquiry.now }
    requires jobs { 1 ≤ jobs }
    ensures concluded { Concludes (Q.plan inquiry.now) result
        (outside (F.state files.old) (O.state out.old)) (outside (F.state files.new) (O.state out.new)) }
    ensures unheard { (F.state files.new).heard ≡ (F.state files.old).heard }
    ensures misses_kept { (F.state files.new).misses ≡ (F.state files.old).misses }
    ensures faults_grow { (F.state files.old).faults ≤ (F.state files.new).faults }
    ensures out_faults_grow { (O.state out.old).faults ≤ (O.state out.new).faults }
    ensures quiet { UnlessBroken result
        (IsQuiet (outside (F.state files.old) (O.state out.old)) (outside (F.state files.new) (O.state out.new))) }
{
    match report(rt, alloc, inquiry, jobs, files, out) {
        Ok(tally) => inquiry.status(tally),
        Err(OutFault::Failed) => Status::WriteFault,
        Err(OutFault::Memory) => Status::Memory,
    }
}

/// Delivers the report, batch by batch.
fn report<R: Threads + Sync, F: Files, O: Out, Q: Inquiry>(
    rt: &R,
    alloc: Global,
    inquiry: &Q,
    jobs: u32,
    files: &mut F,
    out: &mut O,
) -> Result<Q::Tally, OutFault>
    requires ready { Q.can_work inquiry.now }
    requires jobs { 1 ≤ jobs }
    ensures { Ends (Q.plan inquiry.now) result
        (outside (F.state files.old) (O.state out.old)) (outside (F.state files.new) (O.state out.new)) }
{
    let size = inquiry.size();
    let mut progress = match begin(alloc, inquiry, files, out) {
        Ok(progress) => progress,
        Err(fault) => return Err(fault),
    };
    'batches: while progress.place < size {
        match deliver_batch(rt, alloc, inquiry, jobs, size, progress, files, out) {
            Ok(more) => progress = more,
            Err(fault) => return Err(fault),
        }
    }
    finish(alloc, inquiry, progress, files, out)
}

/// Answers the jobs behind those that are answered, as many as are answered beside each other, and delivers what comes
/// of them.
fn deliver_batch<R: Threads + Sync, F: Files, O: Out, Q: Inquiry>(
    rt: &R,
    alloc: Global,
    inquiry: &Q,
    jobs: u32,
    size: usize,
    before: Progress<Q::Tally>,
    files: &mut F,
    out: &mut O,
) -> Result<Progress<Q::Tally>, OutFault>
    requires ready { Q.can_work inquiry.now }
    requires jobs { 1 ≤ jobs }
    requires whole { size ≡ (Q.plan inquiry.now).size }
    requires left { before.place < size }
    requires room { size < 2 ^ 64 }
    requires tallied { Q.tallied inquiry.now before.place before.tally }
    ensures proceeds { (first : Outside) → Stands (Q.plan inquiry.now) first
        (outside (F.state files.old) (O.state out.old))
        before.place before.tally → Proceeds (Q.plan inquiry.now) result first
        (outside (F.state files.new) (O.state out.new)) }
    ensures more { IfOk result (λ progress. before.place < progress.place) }
    ensures within { IfOk result (λ progress. progress.place ≤ size) }
    ensures tallied { IfOk result (λ progress. Q.tallied inquiry.now progress.place progress.tally) }
{
    match answer_batch(rt, alloc, inquiry, jobs, size, before.place) {
        Ok(answers) => deliver_answers(alloc, inquiry, answers, before, files, out),
        Err(_) => Err(OutFault::Memory),
    }
}
