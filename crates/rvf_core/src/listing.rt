//! `list CFG`

ghost use Rattle.std.specs.Prelude.{◌≡◌, ◌≤◌, [], ◌∷◌, map, IfOk};
ghost use Rattle.fv_base.specs.Outside.{SameFiles};
ghost use Rattle.ck_cfg.specs.Checks.{checks_of};
ghost use Rattle.rvf_case.specs.Hearing.{AreReadOn, HeardMore};
ghost use Rattle.rvf_core.specs.Lists.{name_line};
ghost use Rattle.rvf_core.specs.Steps.{ListsFor, TellsReads};
ghost use Rattle.rvf_report.specs.declared.status.Status.TheVariants.{Passed};

use crate::refusing::refused;
use crate::report::Report;
use ck_cfg::{Check, Config, checks};
use fv_base::Files;
use fv_text::{List, Memory, Text};
use rvf_case::read_config;
use rvf_report::{Delivery, Status};
use std::alloc::Global;

/// The line of a check's name.
fn name_line(alloc: Global, check: &Check) -> Result<Delivery, Memory>
    ensures { IfOk result (λ line. line ≡ name_line check.now) }
{
    let mut line = Vec::from_slice(alloc, check.name.bytes())?;
    line.push(b'\n')?;
    Ok(Delivery::Line(Text::from_vec(line)))
}

/// The names of checks, one on each line.
fn names(alloc: Global, checks: &[Check]) -> Result<List<Delivery>, Memory>
    ensures { IfOk result (λ lines. lines ≡ map name_line checks.now) }
{
    let mut lines = List::new(alloc);
    for check in checks {
        lines.push(name_line(alloc, check)?)?;
    }
    Ok(lines)
}

/// The report of the names of the checks of a configuration.
fn listed(alloc: Global, config: &Config) -> Result<Report, Memory>
    ensures status { IfOk result (λ report. report.status ≡ Passed) }
    ensures lines { IfOk result (λ report. report.deliveries ≡ map name_line (checks_of config.now)) }
{
    let checks = checks(alloc, config)?;
    Ok(Report {
        status: Status::Passed,
        deliveries: names(alloc, checks.as_slice())?,
    })
}

/// `list CFG`
pub(crate) fn list<F: Files>(alloc: Global, cfg: &[u8], files: &mut F) -> Result<Report, Memory>
    ensures says { IfOk result (ListsFor cfg.now (F.state files.old) (F.state files.new)) }
    ensures read_on { HeardMore (F.state files.old).heard (F.state files.new).heard (AreReadOn (cfg.now ∷ [])) }
    ensures kept { SameFiles (F.state files.old).held (F.state files.new).held }
    ensures unwritten { (F.state files.new).written ≡ (F.state files.old).written }
    ensures misses_grow { (F.state files.old).misses ≤ (F.state files.new).misses }
    ensures faults_grow { (F.state files.old).faults ≤ (F.state files.new).faults }
    ensures told { IfOk result (λ report. TellsReads report (F.state files.old).faults (F.state files.new).faults) }
{
    match read_config(alloc, cfg, files) {
        Ok(config) => listed(alloc, &config),
        Err(refusal) => refused(alloc, &refusal),
    }
}
