ghost use Rattle.std.specs.Prelude.{◌≡◌, ◌<◌};
ghost use Rattle.bm_decide.specs.Searches.{TakesFewer};
ghost use Rattle.ck_cfg.specs.Checks.{checks_of};
ghost use Rattle.rvf_case.specs.Cases.{IsReady};
ghost use Rattle.rvf_checks.specs.LengthCounting.{length_places};
ghost use Rattle.rvf_checks.specs.Lengths.{AreOfSteps, IsLengthAt, lengths_plan};

use crate::head::head;
use crate::length_counts::LengthCounts;
use crate::length_files::length_deliveries;
use crate::length_job::{check_name, induct_at};
use crate::length_lines::lengths_line;
use ck_cfg::Check;
use fv_text::{List, Memory};
use rvf_case::{Case, Steps};
use rvf_jobs::{Gate, Job};
use rvf_judge::Induction;
use rvf_report::{Delivery, Inquiry, Status};
use std::alloc::Global;

/// The checks of a case in runs of every length, with how they are answered and reported.
#[derive(Drop)]
pub struct Lengths<'a, G> {
    /// What each check passes as it begins, with its place.
    pub gate: &'a G,
    pub case: &'a Case,
    /// All checks of the configuration, in their order.
    pub checks: &'a [Check],
    pub steps: Steps,
    /// The folder of the files, without a slash behind it.
    pub folder: &'a [u8],
    /// How many clauses the search of each half may learn, from 1 on.
    pub budget: u64,
}

impl<G: Gate> Job for Lengths<'_, G> {
    type Answer = Induction;

    ghost is_answer = { λ x place made.
        IsLengthAt TakesFewer x.case.now x.steps.number x.budget place made };

    ghost can_work = { λ x. IsReady x.case.now × AreOfSteps x.case.now x.steps.number
        × (x.checks.now ≡ checks_of x.case.now.config) × (0 < x.budget) };

    /// Passes the gate, and answers. There is no answer where the place isn't one of the list.
    fn work(&self, alloc: Global, index: u32) -> Result<Induction, Memory> {
        self.gate.enter(index);
        induct_at(
            alloc,
            self.case,
            self.checks,
            self.steps,
            self.budget,
            index as usize,
        )
    }
}

impl<G: Gate> Inquiry for Lengths<'_, G> {
    type Tally = LengthCounts;

    ghost plan = { λ x. lengths_plan TakesFewer x.case.now x.checks.now x.folder.now x.steps.number x.budget };

    ghost tallied = { λ x many counts. length_places counts ≡ many };

    fn size(&self) -> usize {
        self.checks.len()
    }

    fn head(&self, alloc: Global) -> Result<List<Delivery>, Memory> {
        head(alloc, self.case)
    }

    fn none(&self) -> LengthCounts {
        LengthCounts::none()
    }

    fn counted(&self, place: usize, before: LengthCounts, answer: &Induction) -> LengthCounts {
        before.with_answer(answer)
    }

    fn deliveries(
        &self,
        alloc: Global,
        place: usize,
        answer: Induction,
    ) -> Result<List<Delivery>, Memory> {
        let name = check_name(self.checks, place);
        length_deliveries(
            alloc,
            self.folder,
            name,
            self.steps.number,
            self.budget,
            answer,
        )
    }

    fn last(&self, alloc: Global, tally: LengthCounts) -> Result<List<Delivery>, Memory> {
        let depths = self.case.config.skips.len() as u64;
        // no two lists are so long that their lengths have no sum
        let Some(skipped) = depths.checked_add(tally.skipped) else {
            return Err(Memory);
        };
        let line = lengths_line(alloc, tally, skipped)?;
        let mut made = List::new(alloc);
        made.push(Delivery::Line(line))?;
        Ok(made)
    }

    fn status(&self, tally: LengthCounts) -> Status {
        tally.status()
    }

    ghost planned = { λ inquiry place answer is. is };
}
