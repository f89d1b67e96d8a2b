ghost use Rattle.std.specs.Prelude.{◌≡◌, ◌+◌, ◌<◌, ◌^◌, ℕ, map, length, slice_index_or, Ok, IfOk};
ghost use Rattle.rvf_jobs.specs.Answers.{AreAnswers};

use crate::job::Job;
use fv_text::Memory;
use std::alloc::Global;
use std::thread;
use std::thread::Threads;

/// The answers of the jobs from `first` on, `count` of them, in the order of their numbers.
///
/// The batch is halved until single jobs are left, and both halves run beside each other where a thread can be made. It
/// takes no lock and shares nothing that changes.
pub fn run_jobs<R: Threads + Sync, J: Job>(
    rt: &R,
    alloc: Global,
    job: &J,
    first: u32,
    count: u32,
) -> Result<Vec<J::Answer>, Memory>
    requires able { J.can_work job.now }
    requires room { first + count < 2 ^ 32 }
    ensures { IfOk result (λ answers. AreAnswers (J.is_answer job.now) first count answers.items) }
{
    all_done(alloc, results(rt, alloc, job, first, count)?)
}

/// What each job came to, in the order of their numbers.
fn results<R: Threads + Sync, J: Job>(
    rt: &R,
    alloc: Global,
    job: &J,
    first: u32,
    count: u32,
) -> Result<Vec<Result<J::Answer, Memory>>, Memory>
    requires able { J.can_work job.now }
    requires room { first + count < 2 ^ 32 }
    ensures len { IfOk result (λ results. length results.items ≡ count) }
    ensures each { IfOk result (λ results. (i : ℕ) (d : _) → i < count
        → IfOk (slice_index_or results.items i d) (λ answer. J.is_answer job.now (first + i) answer)) }
{
    Ok(thread::map_indices(
        rt,
        alloc,
        count as usize,
        &|index| job.work(alloc, first + index as u32),
    )?)
}

/// The answers, where each job has one.
fn all_done<T: Drop>(alloc: Global, results: Vec<Result<T, Memory>>) -> Result<Vec<T>, Memory>
    ensures { IfOk result (λ answers. map (λ answer. Ok answer) answers.items ≡ results.items) }
{
    let mut answers = Vec::new(alloc);
    for result in results {
        answers.push(result?)?;
    }
    Ok(answers)
}
