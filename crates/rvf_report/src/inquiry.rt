ghost use Rattle.std.specs.Prelude.{◌≡◌, ◌+◌, ◌<◌, ◌^◌, ℕ, IfOk};
ghost use Rattle.rvf_report.specs.Reports.{Plan};
ghost use Rattle.rvf_report.specs.Status.{IsOfAnswers};

use crate::delivery::Delivery;
use crate::status::Status;
use fv_text::{List, Memory};
use rvf_jobs::Job;
use std::alloc::Global;

/// Jobs that are answered beside each other, and what is delivered of their answers, in the order of the jobs.
pub trait Inquiry: Job {
    /// How many answers are what.
    type Tally: Copy;

    /// What is answered and delivered.
    ghost plan: { Self → Plan Self.Answer Self.Tally };

    /// The tally is one of so many answers.
    ghost tallied: { Self → ℕ → Self.Tally → Type 0 };

    /// How many jobs there are.
    fn size(&self) -> usize
        ensures { result ≡ (plan self.now).size };

    /// What is delivered before the first answer.
    fn head(&self, alloc: Global) -> Result<List<Delivery>, Memory>
        ensures { IfOk result (λ made. made ≡ (plan self.now).head) };

    /// The tally of no answers.
    fn none(&self) -> Self::Tally
        ensures value { result ≡ (plan self.now).none }
        ensures tallied { tallied self.now 0 result };

    /// The tally with the answer of the job at a place.
    fn counted(&self, place: usize, before: Self::Tally, answer: &Self::Answer) -> Self::Tally
        requires room { place + 1 < 2 ^ 64 }
        requires tallied { tallied self.now place before }
        ensures value { result ≡ (plan self.now).counted place before answer.now }
        ensures more { tallied self.now (place + 1) result };

    /// What is delivered of the answer of the job at a place.
    fn deliveries(
        &self,
        alloc: Global,
        place: usize,
        answer: Self::Answer,
    ) -> Result<List<Delivery>, Memory>
        requires { (plan self.now).is_answer place answer }
        ensures { IfOk result (λ made. made ≡ (plan self.now).deliveries place answer) };

    /// What is delivered behind the last answer.
    fn last(&self, alloc: Global, tally: Self::Tally) -> Result<List<Delivery>, Memory>
        ensures { IfOk result (λ made. made ≡ (plan self.now).last tally) };

    /// The status of all answers.
    fn status(&self, tally: Self::Tally) -> Status
        ensures value { result ≡ (plan self.now).status tally }
        ensures own { IsOfAnswers result };

    /// An answer of a job is one of what is answered.
    ghost planned: { (inquiry : Self) (place : ℕ) (answer : Self.Answer) → Self.Job.is_answer inquiry place answer
        → (plan inquiry).is_answer place answer };
}
