ghost use Rattle.std.specs.Prelude.{◌≡◌, ◌+◌, ◌<◌, ◌≤◌, ◌^◌};
ghost use Rattle.rvf_checks.specs.Counting as counting;
ghost use Rattle.rvf_report.specs.Status.{IsOfAnswers};

use crate::failing::fails;
use ck_ask::Question;
use rvf_judge::Judged;
use rvf_report::Status;

/// How many answers are what.
#[derive(Debug, Clone, Copy, PartialEq, Eq)]
pub struct Counts {
    /// Of questions of which no run gives what is sought.
    pub never: u64,
    /// Of questions of which some run does.
    pub found: u64,
    /// Of questions whose budget is used up.
    pub spent: u64,
    /// How many questions fail by their answers.
    pub failing: u64,
}

impl Counts {
    /// The counts of no answers.
    pub(crate) fn none() -> Counts
        ensures { result ≡ counting.no_counts }
    {
        Counts {
            never: 0,
            found: 0,
            spent: 0,
            failing: 0,
        }
    }

    /// The counts with one answer more.
    #[tactic(auto, using(crate::proofs::Counting::places_with_answer, crate::proofs::Counting::failing_with_answer))]
    pub(crate) fn with_answer(self, judged: &Judged) -> Counts
        requires { counting.places_of self + 1 < 2 ^ 64 }
        ensures value { result ≡ counting.with_answer self judged.now }
        ensures places { counting.places_of result ≡ counting.places_of self + 1 }
        ensures failing { result.failing ≡ self.failing }
    {
        match judged {
            Judged::Never(_) => Counts {
                never: self.never + 1,
                ..self
            },
            Judged::Found(_) => Counts {
                found: self.found + 1,
                ..self
            },
            Judged::Spent(_) => Counts {
                spent: self.spent + 1,
                ..self
            },
        }
    }

    /// The counts with one failure more, where the question fails.
    fn with_failure(self, fails: bool) -> Counts
        requires { self.failing + 1 < 2 ^ 64 }
        ensures value { result ≡ counting.with_failure self fails }
        ensures places { counting.places_of result ≡ counting.places_of self }
        ensures failing { result.failing ≤ self.failing + 1 }
    {
        if fails {
            Counts {
                failing: self.failing + 1,
                ..self
            }
        } else {
            self
        }
    }

    /// The counts with the answer of one question more.
    pub(crate) fn counted(self, question: &Question, judged: &Judged) -> Counts
        requires places { counting.places_of self + 1 < 2 ^ 64 }
        requires failing { self.failing ≤ counting.places_of self }
        ensures value { result ≡ counting.counted question.now self judged.now }
        ensures places { counting.places_of result ≡ counting.places_of self + 1 }
        ensures failing { result.failing ≤ self.failing + 1 }
    {
        self.with_answer(judged)
            .with_failure(fails(question, judged))
    }

    /// The status of a run with these counts.
    pub(crate) fn status(self) -> Status
        ensures value { result ≡ counting.status_in self }
        ensures own { IsOfAnswers result }
    {
        if self.failing > 0 {
            Status::Failing
        } else if self.spent > 0 {
            Status::Spent
        } else {
            Status::Passed
        }
    }
}
