//! The checks of a case, judged and reported.

ghost use Rattle.std.specs.Prelude.{◌≡◌, ◌≤◌, ◌<◌};
ghost use Rattle.rvf_case.specs.Cases.{IsReady};
ghost use Rattle.rvf_checks.specs.Checked.{plan_of};
ghost use Rattle.rvf_checks.specs.Known.{known_of};
ghost use Rattle.rvf_report.specs.Outcome.{IsQuiet, outside};
ghost use Rattle.rvf_report.specs.Reports.{Concludes};
ghost use Rattle.rvf_report.specs.Status.{UnlessBroken};

use fv_base::{Files, Out};
use rvf_case::Case;
use rvf_checks::{Checks, Splitting, Wording};
use rvf_jobs::{Gate, OpenGate};
use rvf_report::{Status, conclude};
use std::alloc::Global;
use std::thread::Threads;

/// How the checks of a case are judged and reported.
#[derive(Drop)]
pub(crate) struct Terms<'a, 'b, R> {
    pub(crate) wording: Wording,
    /// The folder of the files, without a slash behind it.
    pub(crate) folder: &'a [u8],
    /// How many clauses a search may learn, from 1 on.
    pub(crate) budget: u64,
    /// The search of each check's clauses, and how many jobs are done beside each other.
    pub(crate) search: Splitting<'b, R>,
}

/// Judges the checks of a case, and delivers what they come to. Where their clauses are split they are taken one at a
/// time, since the jobs are then the cubes of one check, and none passes the gate.
pub(crate) fn judged<R: Threads + Sync, F: Files, O: Out, G: Gate>(
    alloc: Global,
    case: &Case,
    terms: &Terms<'_, '_, R>,
    gate: &G,
    files: &mut F,
    out: &mut O,
) -> Status
    requires ready { IsReady case.now }
    requires budget { 0 < terms.now.budget }
    ensures concluded { Concludes
        (plan_of (known_of terms.now.search.cubes) case.now terms.now.wording terms.now.folder.now terms.now.budget)
        result (outside (F.state files.old) (O.state out.old)) (outside (F.state files.new) (O.state out.new)) }
    ensures unheard { (F.state files.new).heard ≡ (F.state files.old).heard }
    ensures misses_kept { (F.state files.new).misses ≡ (F.state files.old).misses }
    ensures faults_grow { (F.state files.old).faults ≤ (F.state files.new).faults }
    ensures out_faults_grow { (O.state out.old).faults ≤ (O.state out.new).faults }
    ensures quiet { UnlessBroken result
        (IsQuiet (outside (F.state files.old) (O.state out.old)) (outside (F.state files.new) (O.state out.new))) }
{
    if terms.search.cubes == 0 {
        return concluded(alloc, case, terms, gate, terms.search.jobs, files, out);
    }
    concluded(alloc, case, terms, &OpenGate, 1, files, out)
}

/// The same with so many checks beside each other.
fn concluded<R: Threads + Sync, F: Files, O: Out, G: Gate>(
    alloc: Global,
    case: &Case,
    terms: &Terms<'_, '_, R>,
    gate: &G,
    many: u32,
    files: &mut F,
    out: &mut O,
) -> Status
    requires ready { IsReady case.now }
    requires budget { 0 < terms.now.budget }
    requires many { 1 ≤ many }
    ensures concluded { Concludes
        (plan_of (known_of terms.now.search.cubes) case.now terms.now.wording terms.now.folder.now terms.now.budget)
        result (outside (F.state files.old) (O.state out.old)) (outside (F.state files.new) (O.state out.new)) }
    ensures unheard { (F.state files.new).heard ≡ (F.state files.old).heard }
    ensures misses_kept { (F.state files.new).misses ≡ (F.state files.old).misses }
    ensures faults_grow { (F.state files.old).faults ≤ (F.state files.new).faults }
    ensures out_faults_grow { (O.state out.old).faults ≤ (O.state out.new).faults }
    ensures quiet { UnlessBroken result
        (IsQuiet (outside (F.state files.old) (O.state out.old)) (outside (F.state files.new) (O.state out.new))) }
{
    let checks = Checks {
        gate,
        search: &terms.search,
        case,
        wording: terms.wording,
        folder: terms.folder,
        budget: terms.budget,
    };
    conclude(terms.search.rt, alloc, &checks, many, files, out)
}
