ghost use Rattle.std.specs.Prelude.{◌≡◌, ◌+◌, ◌<◌, ◌^◌};
ghost use Rattle.rvf_checks.specs.LengthCounting as counting;
ghost use Rattle.rvf_report.specs.Status.{IsOfAnswers};

use rvf_judge::Induction;
use rvf_report::Status;

/// How many checks come to what by induction.
#[derive(Debug, Clone, Copy, PartialEq, Eq)]
pub struct LengthCounts {
    pub proved: u64,
    pub failing: u64,
    pub opened: u64,
    pub spent: u64,
    /// How many look at more than one cycle.
    pub skipped: u64,
}

impl LengthCounts {
    /// The counts of no answers.
    pub(crate) fn none() -> LengthCounts
        ensures { result ≡ counting.no_lengths }
    {
        LengthCounts {
            proved: 0,
            failing: 0,
            opened: 0,
            spent: 0,
            skipped: 0,
        }
    }

    /// The counts with one answer more.
    #[tactic(auto, using(crate::proofs::LengthPlaces::places_with_length))]
    pub(crate) fn with_answer(self, made: &Induction) -> LengthCounts
        requires { counting.length_places self + 1 < 2 ^ 64 }
        ensures value { result ≡ counting.with_length self made.now }
        ensures places { counting.length_places result ≡ counting.length_places self + 1 }
    {
        match made {
            Induction::Skipped => LengthCounts {
                skipped: self.skipped + 1,
                ..self
            },
            Induction::Fails(_) => LengthCounts {
                failing: self.failing + 1,
                ..self
            },
            Induction::Open(_) => LengthCounts {
                opened: self.opened + 1,
                ..self
            },
            Induction::Proved { .. } => LengthCounts {
                proved: self.proved + 1,
                ..self
            },
            Induction::SpentBase(_) | Induction::SpentStep(_) => LengthCounts {
                spent: self.spent + 1,
                ..self
            },
        }
    }

    /// The status of a run with these counts.
    pub(crate) fn status(self) -> Status
        ensures value { result ≡ counting.length_status_in self }
        ensures own { IsOfAnswers result }
    {
        if self.failing > 0 {
            Status::Failing
        } else if self.opened > 0 || self.spent > 0 {
            Status::Spent
        } else {
            Status::Passed
        }
    }
}
