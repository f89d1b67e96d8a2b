ghost use Rattle.std.specs.Prelude.{◌≡◌, ◌<◌, ◌≤◌};
ghost use Rattle.std.specs.Thread.{IsSync};
ghost use Rattle.rvf_case.specs.Cases.{IsReady};
ghost use Rattle.rvf_checks.specs.Answers.{IsAnswerAt};
ghost use Rattle.rvf_checks.specs.Checked.{plan_of};
ghost use Rattle.rvf_checks.specs.Counting.{places_of};
ghost use Rattle.rvf_checks.specs.Known.{known_of};

use crate::answering::{judge_at, name_at};
use crate::check::deliveries_in;
use crate::counts::Counts;
use crate::head::head_in;
use crate::last::last_in;
use crate::splitting::Splitting;
use crate::wording::Wording;
use fv_text::{List, Memory};
use rvf_case::Case;
use rvf_jobs::{Gate, Job};
use rvf_judge::Judged;
use rvf_report::{Delivery, Inquiry, Status};
use std::alloc::Global;
use std::thread::Threads;

/// The questions of a case, with how they are answered and reported.
#[derive(Drop)]
pub struct Checks<'a, 'b, G, R> {
    /// What each question passes as it begins, with its place.
    pub gate: &'a G,
    /// What decides the clauses of each question.
    pub search: &'a Splitting<'b, R>,
    pub case: &'a Case,
    pub wording: Wording,
    /// The folder of the files, without a slash behind it.
    pub folder: &'a [u8],
    /// How many clauses a search may learn, from 1 on.
    pub budget: u64,
}

impl<G: Gate, R: Threads + Sync> Job for Checks<'_, '_, G, R> {
    type Answer = Judged;

    ghost is_answer = { λ x place judgement.
        IsAnswerAt (known_of x.search.now.cubes) x.case.now x.budget place judgement };

    // threads may share the handle: said here, since a method of a trait knows it of no type parameter
    ghost can_work = { λ x. IsReady x.case.now × (0 < x.budget) × IsSync R.row };

    /// Passes the gate, and answers. There is no answer where the place isn't one of the list.
    fn work(&self, alloc: Global, index: u32) -> Result<Judged, Memory> {
        self.gate.enter(index);
        judge_at(alloc, self.search, self.case, self.budget, index as usize)
    }
}

impl<G: Gate, R: Threads + Sync> Inquiry for Checks<'_, '_, G, R> {
    type Tally = Counts;

    ghost plan = { λ x. plan_of (known_of x.search.now.cubes) x.case.now x.wording x.folder.now x.budget };

    ghost tallied = { λ x many counts. (places_of counts ≡ many) × (counts.failing ≤ many) };

    fn size(&self) -> usize {
        self.case.questions.len()
    }

    fn head(&self, alloc: Global) -> Result<List<Delivery>, Memory> {
        head_in(alloc, self.wording, self.case)
    }

    fn none(&self) -> Counts {
        Counts::none()
    }

    fn counted(&self, place: usize, before: Counts, answer: &Judged) -> Counts {
        match self.case.questions.get(place) {
            Some(question) => before.counted(question, answer),
            None => before.with_answer(answer),
        }
    }

    fn deliveries(
        &self,
        alloc: Global,
        place: usize,
        answer: Judged,
    ) -> Result<List<Delivery>, Memory> {
        let name = name_at(self.case, place);
        deliveries_in(alloc, self.wording, self.folder, name, self.budget, answer)
    }

    fn last(&self, alloc: Global, tally: Counts) -> Result<List<Delivery>, Memory> {
        last_in(
            alloc,
            self.wording,
            tally,
            self.case.config.skips.len() as u64,
        )
    }

    fn status(&self, tally: Counts) -> Status {
        tally.status()
    }

    ghost planned = { λ inquiry place answer is. is };
}
