//! Jobs that are answered beside each other.

ghost use Rattle.std.specs.Prelude.{◌≡◌, ◌+◌, ◌<◌, ◌≤◌, length, IfOk};
ghost use Rattle.rvf_report.specs.Reports.{AreAnswersFrom};

use crate::inquiry::Inquiry;
use fv_text::Memory;
use rvf_jobs::run_jobs;
use std::alloc::Global;
use std::thread::Threads;

/// The answers of the jobs from a place on, as many as are answered beside each other.
pub(crate) fn answer_batch<R: Threads + Sync, Q: Inquiry>(
    rt: &R,
    alloc: Global,
    inquiry: &Q,
    jobs: u32,
    size: usize,
    first: usize,
) -> Result<Vec<Q::Answer>, Memory>
    requires ready { Q.can_work inquiry.now }
    requires jobs { 1 ≤ jobs }
    requires size { size ≡ (Q.plan inquiry.now).size }
    requires left { first < size }
    ensures answers { IfOk result (λ answers. AreAnswersFrom (Q.plan inquiry.now) first answers.items) }
    ensures some { IfOk result (λ answers. 1 ≤ length answers.items) }
    ensures within { IfOk result (λ answers. first + length answers.items ≤ size) }
{
    let count = (size - first).min(jobs as usize) as u32;
    // Jobs have numbers of 32 bits.
    if first > (u32::MAX - count) as usize {
        return Err(Memory);
    }
    run_jobs(rt, alloc, inquiry, first as u32, count)
}
