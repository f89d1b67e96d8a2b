//! `induct CFG OUTDIR`

ghost use Rattle.std.specs.Prelude.{◌≡◌, ◌≤◌, ◌<◌, ℕ, List, Some};
ghost use Rattle.bm_decide.specs.Searches.{TakesFewer};
ghost use Rattle.ck_cfg.specs.Checks.{checks_of};
ghost use Rattle.rvf_case.specs.Cases.{IsReady};
ghost use Rattle.rvf_checks.specs.Lengths.{AreOfSteps, lengths_plan};
ghost use Rattle.rvf_core.specs.Run.{Ends, HasCounts};
ghost use Rattle.rvf_core.specs.Steps.{HaveStatus};
ghost use Rattle.rvf_core.specs.Works.{length_seen};
ghost use Rattle.rvf_report.specs.Outcome.{IsQuiet, outside};
ghost use Rattle.rvf_report.specs.Reports.{Concludes};
ghost use Rattle.rvf_report.specs.Status.{UnlessBroken};
ghost use Rattle.rvf_words.specs.declared.line.Line.TheVariants as words;

use crate::refusing::refused;
use crate::reporting::put_report;
use bm_decide::Plain;
use ck_cfg::checks;
use fv_base::{Files, Out};
use rvf_case::{Asking, Case, Request, Steps, prepare};
use rvf_checks::Lengths;
use rvf_jobs::Gate;
use rvf_judge::sources_law::inductions_are_the_sources;
use rvf_report::{Status, conclude};
use rvf_words::Options;
use std::alloc::Global;
use std::thread::Threads;

/// What `induct` asks for.
#[derive(Debug, Clone, Copy)]
pub(crate) struct LengthRequest<'a> {
    /// The file of the configuration.
    pub(crate) cfg: &'a [u8],
    /// The name of the core, which `@core@` stands for in the configuration.
    pub(crate) core: &'a [u8],
    /// The folder that `@basedir@` stands for in the configuration.
    pub(crate) basedir: &'a [u8],
    /// The folder of the files, without a slash behind it.
    pub(crate) outdir: &'a [u8],
    /// How many clauses the search of each half may learn, from 1 on.
    pub(crate) budget: u64,
    /// How many checks are answered beside each other, from 1 to 64.
    pub(crate) jobs: u32,
    /// How many steps the induction has, from 1 to 100.
    pub(crate) steps: u32,
}

impl<'a> LengthRequest<'a> {
    /// What words ask for with these operands and options.
    pub(crate) fn of(options: &'a Options, steps: u32) -> LengthRequest<'a>
        ensures line { length_seen result ≡ words.Induct options.now steps }
        ensures budget { result.budget ≡ options.now.budget }
        ensures jobs { result.jobs ≡ options.now.jobs }
        ensures steps { result.steps ≡ steps }
    {
        LengthRequest {
            cfg: options.cfg.bytes(),
            core: options.core.bytes(),
            basedir: options.basedir.bytes(),
            outdir: options.outdir.bytes(),
            budget: options.budget,
            jobs: options.jobs,
            steps,
        }
    }
}

/// Answers the checks of a case in runs of every length, and delivers what they come to.
fn inducted<R: Threads + Sync, F: Files, O: Out, G: Gate>(
    rt: &R,
    alloc: Global,
    case: &Case,
    order: &LengthRequest<'_>,
    steps: Steps,
    gate: &G,
    files: &mut F,
    out: &mut O,
) -> Status
    requires ready { IsReady case.now }
    requires asked { AreOfSteps case.now steps.number }
    requires budget { 0 < order.now.budget }
    requires jobs { 1 ≤ order.now.jobs }
    ensures concluded { Concludes
        (lengths_plan TakesFewer case.now (checks_of case.now.config) order.now.outdir.now steps.number order.now.budget)
        result (outside (F.state files.old) (O.state out.old)) (outside (F.state files.new) (O.state out.new)) }
    ensures unheard { (F.state files.new).heard ≡ (F.state files.old).heard }
    ensures misses_kept { (F.state files.new).misses ≡ (F.state files.old).misses }
    ensures faults_grow { (F.state files.old).faults ≤ (F.state files.new).faults }
    ensures out_faults_grow { (O.state out.old).faults ≤ (O.state out.new).faults }
    ensures quiet { UnlessBroken result
        (IsQuiet (outside (F.state files.old) (O.state out.old)) (outside (F.state files.new) (O.state out.new))) }
{
    let Ok(all) = checks(alloc, &case.config) else {
        return Status::Memory;
    };
    let lengths = Lengths {
        gate,
        case,
        checks: all.as_slice(),
        steps,
        folder: order.outdir,
        budget: order.budget,
    };
    conclude(rt, alloc, &lengths, order.jobs, files, out)
}

/// Answers the checks of a configuration in runs of every length and delivers what they come to; or says why it
/// doesn't.
pub(crate) fn lengths<R: Threads + Sync, F: Files, O: Out, G: Gate>(
    rt: &R,
    alloc: Global,
    order: &LengthRequest<'_>,
    gate: &G,
    files: &mut F,
    out: &mut O,
) -> Status
    requires budget { 0 < order.now.budget }
    requires jobs { 1 ≤ order.now.jobs × order.now.jobs ≤ 64 }
    requires some { 1 ≤ order.now.steps }
    requires few { order.now.steps ≤ 100 }
    ensures ends { (asked : List (List ℕ)) → Ends (Some (length_seen order.now)) (record {
      words = asked;
      before = outside (F.state files.old) (O.state out.old);
      now = outside (F.state files.new) (O.state out.new);
    }) result }
    ensures statuses { (asked : List (List ℕ)) → HaveStatus (Some (length_seen order.now)) (record {
      words = asked;
      before = outside (F.state files.old) (O.state out.old);
      now = outside (F.state files.new) (O.state out.new);
    }) result }
    ensures counts { HasCounts result
        (outside (F.state files.old) (O.state out.old)) (outside (F.state files.new) (O.state out.new)) }
{
    inductions_are_the_sources(&Plain);
    let steps = Steps {
        number: order.steps,
    };
    let request = Request {
        cfg: order.cfg,
        core: order.core,
        basedir: order.basedir,
        asking: Asking::Lengths(steps),
    };
    match prepare(alloc, request, files) {
        Ok(case) => inducted(rt, alloc, &case, order, steps, gate, files, out),
        Err(refusal) => put_report(alloc, refused(alloc, &refusal), files, out),
    }
}
