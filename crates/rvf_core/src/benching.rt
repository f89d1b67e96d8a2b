//! `bench N`

ghost use Rattle.std.specs.Prelude.{◌≡◌, ◌≤◌, ℕ, List, Some};
ghost use Rattle.fv_base.specs.Kept.{sure_names};
ghost use Rattle.fv_base.specs.Outside.{SameFiles};
ghost use Rattle.rvf_words.specs.declared.line.Line.TheVariants as words;
ghost use Rattle.rvf_core.specs.Bench.{held_of};
ghost use Rattle.rvf_core.specs.Run.{Ends, HasCounts};
ghost use Rattle.rvf_report.specs.Outcome.{outside};

use crate::bench_files::bench_files;
use crate::refusing::refused;
use crate::reporting::put_report;
use crate::terms::{Terms, judged};
use fv_base::{Files, Out, SureFiles};
use fv_text::Memory;
use rvf_case::{Asking, Request, prepare};
use rvf_checks::{Splitting, Wording};
use rvf_jobs::Gate;
use rvf_judge::sources_law::judgements_are_the_sources;
use rvf_report::Status;
use std::alloc::Global;
use std::thread::Threads;

/// How many clauses each check may derive.
const BUDGET: u64 = 200_000;

/// Judges the checks of the design with so many registers, delivers the files of those whose budget is used up, and
/// behind them how many came to what; or says why it doesn't.
pub(crate) fn bench<R: Threads + Sync, F: Files, O: Out, G: Gate>(
    rt: &R,
    alloc: Global,
    size: u32,
    gate: &G,
    files: &mut F,
    out: &mut O,
) -> Status
    ensures ends { (asked : List (List ℕ)) → Ends (Some (words.Bench size)) (record {
      words = asked;
      before = outside (F.state files.old) (O.state out.old);
      now = outside (F.state files.new) (O.state out.new);
    }) result }
    ensures counts { HasCounts result
        (outside (F.state files.old) (O.state out.old)) (outside (F.state files.new) (O.state out.new)) }
{
    match bench_files(alloc, size) {
        Ok(own) => benched(rt, alloc, size, own, gate, files, out),
        Err(Memory) => Status::Memory,
    }
}

/// The same over the files that are made for it.
fn benched<R: Threads + Sync, F: Files, O: Out, G: Gate>(
    rt: &R,
    alloc: Global,
    size: u32,
    own: SureFiles,
    gate: &G,
    files: &mut F,
    out: &mut O,
) -> Status
    requires { SameFiles (Some (held_of size)) (Some (sure_names own)) }
    ensures ends { (asked : List (List ℕ)) → Ends (Some (words.Bench size)) (record {
      words = asked;
      before = outside (F.state files.old) (O.state out.old);
      now = outside (F.state files.new) (O.state out.new);
    }) result }
    ensures counts { HasCounts result
        (outside (F.state files.old) (O.state out.old)) (outside (F.state files.new) (O.state out.new)) }
{
    let mut own = own;
    let request = Request {
        cfg: b"checks.cfg",
        core: b"core",
        basedir: b".",
        asking: Asking::Checks,
    };
    let terms = Terms {
        wording: Wording::Bench(size),
        folder: b"bench",
        budget: BUDGET,
        search: Splitting {
            rt,
            cubes: 0,
            jobs: 1,
        },
    };
    judgements_are_the_sources(&terms.search);
    match prepare(alloc, request, &mut own) {
        Ok(case) => judged(alloc, &case, &terms, gate, files, out),
        Err(refusal) => put_report(alloc, refused(alloc, &refusal), files, out),
    }
}
