//! `run CFG OUTDIR`, and the other words that put questions of a configuration

ghost use Rattle.std.specs.Prelude.{◌≡◌, ◌≤◌, ◌<◌, ℕ, List, Some};
ghost use Rattle.rvf_words.specs.declared.line.Line.{Line as Words};
ghost use Rattle.rvf_core.specs.Run.{Ends, HasCounts};
ghost use Rattle.rvf_core.specs.Steps.{HaveCauses};
ghost use Rattle.rvf_core.specs.Tasks.{task_of};
ghost use Rattle.rvf_core.specs.Works.{task_seen};
ghost use Rattle.rvf_report.specs.Outcome.{outside};

use crate::refusing::refused;
use crate::reporting::put_report;
use crate::terms::{Terms, judged};
use crate::work::Work;
use fv_base::{Files, Out};
use rvf_case::{Request, prepare};
use rvf_checks::Splitting;
use rvf_jobs::Gate;
use rvf_judge::sources_law::judgements_are_the_sources;
use rvf_report::Status;
use std::alloc::Global;
use std::thread::Threads;

/// Answers the questions of a configuration and delivers what they come to; or says why it doesn't. So it does what
/// each line asks for whose task this is.
pub(crate) fn check<R: Threads + Sync, F: Files, O: Out, G: Gate>(
    rt: &R,
    alloc: Global,
    work: &Work<'_>,
    gate: &G,
    files: &mut F,
    out: &mut O,
) -> Status
    requires budget { 0 < work.now.budget }
    requires jobs { 1 ≤ work.now.jobs × work.now.jobs ≤ 64 }
    requires cubes { work.now.cubes ≤ 6 }
    ensures ends { (line : Words) → task_of line ≡ Some (task_seen work.now) → (asked : List (List ℕ))
        → Ends (Some line) (record {
          words = asked;
          before = outside (F.state files.old) (O.state out.old);
          now = outside (F.state files.new) (O.state out.new);
        }) result }
    ensures causes { (asked : List (List ℕ)) → HaveCauses (task_seen work.now).request (record {
      words = asked;
      before = outside (F.state files.old) (O.state out.old);
      now = outside (F.state files.new) (O.state out.new);
    }) result }
    ensures counts { HasCounts result
        (outside (F.state files.old) (O.state out.old)) (outside (F.state files.new) (O.state out.new)) }
{
    let request = Request {
        cfg: work.cfg,
        core: work.core,
        basedir: work.basedir,
        asking: work.asking,
    };
    let terms = Terms {
        wording: work.wording,
        folder: work.outdir,
        budget: work.budget,
        search: Splitting {
            rt,
            cubes: work.cubes,
            jobs: work.jobs,
        },
    };
    judgements_are_the_sources(&terms.search);
    match prepare(alloc, request, files) {
        Ok(case) => judged(alloc, &case, &terms, gate, files, out),
        Err(refusal) => put_report(alloc, refused(alloc, &refusal), files, out),
    }
}
