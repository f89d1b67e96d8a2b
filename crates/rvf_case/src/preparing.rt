//! From the names of a command line to the questions and what they are answered by.

ghost use Rattle.std.specs.Prelude.{◌≡◌, ◌≤◌, ◌∷◌, Some, Result, IfOk};
ghost use Rattle.fv_base.specs.Outside.{Names, SameFiles};
ghost use Rattle.ck_cfg.specs.Files.{file_names_of};
ghost use Rattle.rvf_case.specs.declared.case.Case.{Case as SpecCase};
ghost use Rattle.rvf_case.specs.declared.refusal.Refusal.{Refusal as SpecRefusal};
ghost use Rattle.rvf_case.specs.Cases.{Alike, Comes, IsReady, UnlessUnread, request_seen, seen_between};
ghost use Rattle.rvf_case.specs.Hearing.{Answered, HeardMore};
ghost use Rattle.rvf_case.specs.Steps.{Prepares};

use crate::asking::{Asking, find_asked};
use crate::case::Case;
use crate::loading::case_of;
use crate::reading::{read_config, read_files};
use crate::refusal::Refusal;
use ck_cfg::{Config, file_names};
use fv_base::Files;
use fv_text::{List, Memory, Text};
use std::alloc::Global;

/// What a run is asked for that reads a configuration: its file, the names that are put into the names of files, and
/// what is asked of it.
#[derive(Debug, Clone, Copy)]
pub struct Request<'a> {
    pub cfg: &'a [u8],
    pub core: &'a [u8],
    pub basedir: &'a [u8],
    pub asking: Asking<'a>,
}

/// The names of the Verilog files.
fn names_of(
    alloc: Global,
    config: &Config,
    core: &[u8],
    basedir: &[u8],
) -> Result<List<Text>, Memory>
    ensures { IfOk result (λ names. names ≡ file_names_of config.now core.now basedir.now) }
{
    let core_name = Text::from_bytes(alloc, core)?;
    let folder = Text::from_bytes(alloc, basedir)?;
    file_names(alloc, config, &core_name, &folder)
}

/// One more name in front of names.
fn with_first(alloc: Global, first: &[u8], names: List<Text>) -> Result<List<Text>, Memory>
    ensures { IfOk result (λ all. all ≡ first.now ∷ names) }
{
    let mut all = names.into_vec();
    all.insert(0, Text::from_bytes(alloc, first)?)?;
    Ok(List::from_vec(all))
}

/// What `prepare` answers.
fn prepared<F: Files>(alloc: Global, request: Request<'_>, files: &mut F) -> Result<Case, Refusal>
    ensures prepares { HeardMore (F.state files.old).heard (F.state files.new).heard
        (λ events. Prepares (request_seen request.entry) (seen_between (F.state files.old) (F.state files.new)) events
        result) }
    ensures ready { IfOk result (λ case. IsReady case) }
    ensures kept { SameFiles (F.state files.old).held (F.state files.new).held }
    ensures unwritten { (F.state files.new).written ≡ (F.state files.old).written }
    ensures misses_grow { (F.state files.old).misses ≤ (F.state files.new).misses }
    ensures faults_grow { (F.state files.old).faults ≤ (F.state files.new).faults }
    ensures quiet { UnlessUnread result ((F.state files.new).faults ≡ (F.state files.old).faults) }
{
    let config = read_config(alloc, request.cfg, files)?;
    find_asked(alloc, request.asking, &config)?;
    let names = names_of(alloc, &config, request.core, request.basedir)?;
    let texts = read_files(alloc, names.as_slice(), files)?;
    let all = with_first(alloc, request.cfg, names)?;
    case_of(alloc, config, request.asking, all, texts.as_slice())
}

/// The questions of a configuration and what they are answered by; or the first cause in the order of work why they
/// aren't.
///
/// The configuration is read, and a check that is asked for has to be one of it; then its Verilog files are read, in
/// the order of their lines; then each distinct text is loaded once, in the order of their first questions. Nothing is
/// written.
pub fn prepare<F: Files>(
    alloc: Global,
    request: Request<'_>,
    files: &mut F,
) -> Result<Case, Refusal>
    ensures comes { Answered (request_seen request.entry) (seen_between (F.state files.old) (F.state files.new))
        (F.state files.old).heard (F.state files.new).heard result }
    ensures exact { (names : Names) → (F.state files.old).held ≡ Some names → (other : Result SpecCase SpecRefusal)
        → Comes (request_seen request.entry)
        (record {
          held = Some names;
          misses = (F.state files.old).misses;
          misses_now = (F.state files.new).misses;
          faults = (F.state files.old).faults;
          faults_now = (F.state files.new).faults;
        }) other → Alike result other }
    ensures ready { IfOk result (λ case. IsReady case) }
    ensures kept { SameFiles (F.state files.old).held (F.state files.new).held }
    ensures unwritten { (F.state files.new).written ≡ (F.state files.old).written }
    ensures misses_grow { (F.state files.old).misses ≤ (F.state files.new).misses }
    ensures faults_grow { (F.state files.old).faults ≤ (F.state files.new).faults }
    // A call on the files failed only where the answer says so, or memory is wanted.
    ensures quiet { UnlessUnread result ((F.state files.new).faults ≡ (F.state files.old).faults) }
{
    prepared(alloc, request, files)
}
