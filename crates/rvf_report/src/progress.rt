//! A report, delivered part by part.

ghost use Rattle.std.specs.Prelude.{◌≡◌, ◌+◌, ◌<◌, ◌^◌, length, IfOk};
ghost use Rattle.rvf_report.specs.Outcome.{Outside, outside};
ghost use Rattle.rvf_report.specs.Reports.{AreAnswersFrom};
ghost use Rattle.rvf_report.specs.Steps.{Ends, Proceeds, Stands};

use crate::delivering::deliver_made;
use crate::inquiry::Inquiry;
use fv_base::{Files, Out, OutFault};
use std::alloc::Global;

/// How far a report has come.
#[derive(Clone, Copy)]
pub(crate) struct Progress<T> {
    /// How many jobs are answered, and their answers delivered.
    pub(crate) place: usize,
    /// The tally of these answers.
    pub(crate) tally: T,
}

/// Delivers what stands before the answers.
pub(crate) fn begin<F: Files, O: Out, Q: Inquiry>(
    alloc: Global,
    inquiry: &Q,
    files: &mut F,
    out: &mut O,
) -> Result<Progress<Q::Tally>, OutFault>
    ensures proceeds { Proceeds (Q.plan inquiry.now) result
        (outside (F.state files.old) (O.state out.old)) (outside (F.state files.new) (O.state out.new)) }
    ensures first { IfOk result (λ progress. progress.place ≡ 0) }
    ensures tallied { IfOk result (λ progress. Q.tallied inquiry.now progress.place progress.tally) }
{
    let tally = inquiry.none();
    match deliver_made(alloc, inquiry.head(alloc), files, out) {
        Ok(()) => Ok(Progress { place: 0, tally }),
        Err(fault) => Err(fault),
    }
}

/// Delivers the answers of the jobs behind those that are answered, in order.
pub(crate) fn deliver_answers<F: Files, O: Out, Q: Inquiry>(
    alloc: Global,
    inquiry: &Q,
    answers: Vec<Q::Answer>,
    before: Progress<Q::Tally>,
    files: &mut F,
    out: &mut O,
) -> Result<Progress<Q::Tally>, OutFault>
    requires answers { AreAnswersFrom (Q.plan inquiry.now) before.place answers.items }
    requires room { before.place + length answers.items < 2 ^ 64 }
    requires tallied { Q.tallied inquiry.now before.place before.tally }
    ensures proceeds { (first : Outside) → Stands (Q.plan inquiry.now) first
        (outside (F.state files.old) (O.state out.old))
        before.place before.tally → Proceeds (Q.plan inquiry.now) result first
        (outside (F.state files.new) (O.state out.new)) }
    ensures more { IfOk result (λ progress. progress.place ≡ before.place + length answers.items) }
    ensures tallied { IfOk result (λ progress. Q.tallied inquiry.now progress.place progress.tally) }
{
    let mut progress = before;
    for answer in answers {
        match deliver_answer(alloc, inquiry, answer, progress, files, out) {
            Ok(more) => progress = more,
            Err(fault) => return Err(fault),
        }
    }
    Ok(progress)
}

/// Delivers the answer of the job behind those that are answered.
fn deliver_answer<F: Files, O: Out, Q: Inquiry>(
    alloc: Global,
    inquiry: &Q,
    answer: Q::Answer,
    before: Progress<Q::Tally>,
    files: &mut F,
    out: &mut O,
) -> Result<Progress<Q::Tally>, OutFault>
    requires answers { (Q.plan inquiry.now).is_answer before.place answer }
    requires room { before.place + 1 < 2 ^ 64 }
    requires tallied { Q.tallied inquiry.now before.place before.tally }
    ensures proceeds { (first : Outside) → Stands (Q.plan inquiry.now) first
        (outside (F.state files.old) (O.state out.old))
        before.place before.tally → Proceeds (Q.plan inquiry.now) result first
        (outside (F.state files.new) (O.state out.new)) }
    ensures more { IfOk result (λ progress. progress.place ≡ before.place + 1) }
    ensures tallied { IfOk result (λ progress. Q.tallied inquiry.now progress.place progress.tally) }
{
    let tally = inquiry.counted(before.place, before.tally, &answer);
    let made = inquiry.deliveries(alloc, before.place, answer);
    match deliver_made(alloc, made, files, out) {
        Ok(()) => Ok(Progress {
            place: before.place + 1,
            tally,
        }),
        Err(fault) => Err(fault),
    }
}

/// Delivers what stands behind the last answer.
pub(crate) fn finish<F: Files, O: Out, Q: Inquiry>(
    alloc: Global,
    inquiry: &Q,
    progress: Progress<Q::Tally>,
    files: &mut F,
    out: &mut O,
) -> Result<Q::Tally, OutFault>
    requires all { progress.place ≡ (Q.plan inquiry.now).size }
    ensures { (first : Outside) → Stands (Q.plan inquiry.now) first
        (outside (F.state files.old) (O.state out.old))
        progress.place progress.tally → Ends (Q.plan inquiry.now) result first
        (outside (F.state files.new) (O.state out.new)) }
{
    let tally = progress.tally;
    match deliver_made(alloc, inquiry.last(alloc, tally), files, out) {
        Ok(()) => Ok(tally),
        Err(fault) => Err(fault),
    }
}
