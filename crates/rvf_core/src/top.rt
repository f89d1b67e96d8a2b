//! The top call.

ghost use Rattle.std.specs.Prelude.{◌≡◌, ℕ, List as SpecList, Some, map, string_bytes, IfOk};
ghost use Rattle.rvf_core.specs.Certificate.{one_line};
ghost use Rattle.rvf_core.specs.Run.{Answers, Ends, HasCounts, IsExact, IsLine, usage_line};
ghost use Rattle.rvf_core.specs.Steps.{HaveStatus};
ghost use Rattle.rvf_report.specs.declared.status.Status.TheVariants.{Usage};
ghost use Rattle.rvf_report.specs.Outcome.{outside};
ghost use Rattle.rvf_words.specs.Line.{line_of};

use crate::benching::bench;
use crate::certifying::refute;
use crate::checking::check;
use crate::encoding::encode;
use crate::exporting::{ExportRequest, export};
use crate::lengths::{LengthRequest, lengths};
use crate::listing::list;
use crate::report::Report;
use crate::reporting::put_report;
use crate::work::Work;
use fv_base::{Files, Out};
use fv_text::{Memory, Text};
use rvf_case::Asking;
use rvf_checks::Wording;
use rvf_jobs::{Gate, OpenGate};
use rvf_report::Status;
use rvf_words::{Line, read_words};
use std::alloc::Global;
use std::thread::Threads;

/// The line that is put where the words aren't understood.
const USAGE: &[u8] =
    b"usage: rvf run CFG OUTDIR [--core NAME] [--basedir DIR] [--budget N] [--jobs N] [--cubes N] \
| list CFG | lrat CNF PROOF | bench N \
| cover CFG OUTDIR [--core NAME] [--basedir DIR] [--budget N] [--jobs N] \
| zb CFG OUTDIR [--core NAME] [--basedir DIR] [--budget N] [--jobs N] \
| induct CFG OUTDIR [--core NAME] [--basedir DIR] [--budget N] [--jobs N] [--steps K] \
| toaig CFG CHECK FILE [--core NAME] [--basedir DIR] | fromaig AAG CNF\n";

/// Does what the words ask for, delivers what it found, and answers how it ended.
///
/// `words` are the words behind the program's name. `run CFG OUTDIR` judges the checks of a configuration. Each pass
/// and each spent budget comes behind the files `OUTDIR/NAME.cnf` and `OUTDIR/NAME.lrat`, clauses with notes and
/// steps over them, each fail behind `OUTDIR/NAME.vcd`, the trace of a run that violates the check. With `--cubes N`
/// the clauses of each check are split by N variables, and their cubes searched beside each other. `list CFG` puts
/// the names of the checks. `lrat CNF PROOF` checks that the steps of a proof refute the clauses of a file. `bench N`
/// judges the checks of a design with N registers that it makes, and puts how many came to what. `cover CFG OUTDIR`
/// says of each target of the configuration's checks whether a run reaches it, behind the trace of one, or behind
/// clauses and steps. `zb CFG OUTDIR` judges the checks of the instructions of Zba and Zbs as `run` does its own.
/// `induct CFG OUTDIR` says of each check that looks at one cycle whether it holds in runs of every length, by
/// induction with K steps. `toaig CFG CHECK FILE` writes the graph of a check, whose output is 1 exactly in the runs
/// that violate it, and `fromaig AAG CNF` the clauses of a graph. A refusal has one line that names its cause.
pub fn run<R: Threads + Sync, F: Files, O: Out>(
    rt: &R,
    alloc: Global,
    words: &[String],
    files: &mut F,
    out: &mut O,
) -> Status
    // Each status has its cause, and exactly its files and lines were delivered.
    ensures answer { Answers result (record {
      words = map string_bytes words.now;
      before = outside (F.state files.old) (O.state out.old);
      now = outside (F.state files.new) (O.state out.new);
    }) }

    // Each cause has its status.
    ensures exact { IsExact result (record {
      words = map string_bytes words.now;
      before = outside (F.state files.old) (O.state out.old);
      now = outside (F.state files.new) (O.state out.new);
    }) }
{
    run_gated(rt, alloc, words, files, out, &OpenGate)
}

/// The same, where the job of each question begins by passing a gate, with its place among the questions.
pub fn run_gated<R: Threads + Sync, F: Files, O: Out, G: Gate>(
    rt: &R,
    alloc: Global,
    words: &[String],
    files: &mut F,
    out: &mut O,
    gate: &G,
) -> Status
    ensures answer { Answers result (record {
      words = map string_bytes words.now;
      before = outside (F.state files.old) (O.state out.old);
      now = outside (F.state files.new) (O.state out.new);
    }) }
    ensures exact { IsExact result (record {
      words = map string_bytes words.now;
      before = outside (F.state files.old) (O.state out.old);
      now = outside (F.state files.new) (O.state out.new);
    }) }
{
    answered(rt, alloc, words, files, out, gate)
}

/// The report of words that aren't understood.
fn misused(alloc: Global) -> Result<Report, Memory>
    ensures { IfOk result (λ report. report ≡ one_line Usage usage_line) }
{
    Report::of_line(alloc, Status::Usage, Text::from_bytes(alloc, USAGE)?)
}

/// Does what the words ask for.
fn answered<R: Threads + Sync, F: Files, O: Out, G: Gate>(
    rt: &R,
    alloc: Global,
    words: &[String],
    files: &mut F,
    out: &mut O,
    gate: &G,
) -> Status
    ensures answer { Answers result (record {
      words = map string_bytes words.now;
      before = outside (F.state files.old) (O.state out.old);
      now = outside (F.state files.new) (O.state out.new);
    }) }
    ensures statuses { HaveStatus (line_of (map string_bytes words.now)) (record {
      words = map string_bytes words.now;
      before = outside (F.state files.old) (O.state out.old);
      now = outside (F.state files.new) (O.state out.new);
    }) result }
    ensures counts { HasCounts result
        (outside (F.state files.old) (O.state out.old)) (outside (F.state files.new) (O.state out.new)) }
{
    match read_words(alloc, words) {
        Ok(Some(line)) => done(rt, alloc, &line, gate, files, out),
        Ok(None) => put_report(alloc, misused(alloc), files, out),
        Err(Memory) => Status::Memory,
    }
}

/// Does what a line asks for.
fn done<R: Threads + Sync, F: Files, O: Out, G: Gate>(
    rt: &R,
    alloc: Global,
    line: &Line,
    gate: &G,
    files: &mut F,
    out: &mut O,
) -> Status
    requires line { IsLine line.now }
    ensures ends { (asked : SpecList (SpecList ℕ)) → Ends (Some line.now) (record {
      words = asked;
      before = outside (F.state files.old) (O.state out.old);
      now = outside (F.state files.new) (O.state out.new);
    }) result }
    ensures statuses { (asked : SpecList (SpecList ℕ)) → HaveStatus (Some line.now) (record {
      words = asked;
      before = outside (F.state files.old) (O.state out.old);
      now = outside (F.state files.new) (O.state out.new);
    }) result }
    ensures counts { HasCounts result
        (outside (F.state files.old) (O.state out.old)) (outside (F.state files.new) (O.state out.new)) }
{
    match line {
        Line::Run {
            cfg,
            outdir,
            core,
            basedir,
            budget,
            jobs,
            cubes,
        } => {
            let work = Work {
                cfg: cfg.bytes(),
                core: core.bytes(),
                basedir: basedir.bytes(),
                asking: Asking::Checks,
                wording: Wording::Run,
                outdir: outdir.bytes(),
                budget: *budget,
                jobs: *jobs,
                cubes: *cubes,
            };
            check(rt, alloc, &work, gate, files, out)
        }
        Line::List { cfg } => put_report(alloc, list(alloc, cfg.bytes(), files), files, out),
        Line::Lrat { cnf, proof } => {
            let report = refute(alloc, cnf.bytes(), proof.bytes(), files);
            put_report(alloc, report, files, out)
        }
        Line::Bench { size } => bench(rt, alloc, *size, gate, files, out),
        Line::Cover(options) => {
            let work = Work::of(options, Asking::Targets, Wording::Cover);
            check(rt, alloc, &work, gate, files, out)
        }
        Line::Zb(options) => {
            let work = Work::of(options, Asking::Zb, Wording::Zb);
            check(rt, alloc, &work, gate, files, out)
        }
        Line::Induct { options, steps } => {
            let order = LengthRequest::of(options, *steps);
            lengths(rt, alloc, &order, gate, files, out)
        }
        Line::Toaig {
            cfg,
            check,
            file,
            core,
            basedir,
        } => {
            let order = ExportRequest {
                cfg: cfg.bytes(),
                check: check.bytes(),
                file: file.bytes(),
                core: core.bytes(),
                basedir: basedir.bytes(),
            };
            export(alloc, &order, files, out)
        }
        Line::Fromaig { aag, cnf } => {
            let report = encode(alloc, aag.bytes(), cnf.bytes(), files);
            put_report(alloc, report, files, out)
        }
    }
}
