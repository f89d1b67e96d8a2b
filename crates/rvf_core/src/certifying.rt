//! `lrat CNF PROOF`

ghost use Rattle.std.specs.Prelude.{◌≡◌, ◌≤◌, [], ◌∷◌, IfOk};
ghost use Rattle.fv_base.specs.Outside.{SameFiles};
ghost use Rattle.rvf_case.specs.Hearing.{AreReadOn, HeardMore};
ghost use Rattle.rvf_core.specs.Steps.{CertifiesFor, TellsReads};
ghost use Rattle.rvf_core.specs.Unread.{IsUnreadReport};

use crate::certificate::certify;
use crate::refusing::refused;
use crate::report::Report;
use fv_base::{FileFault, Files};
use fv_text::{Memory, Text};
use rvf_case::Refusal;
use std::alloc::Global;

/// The report on a file that gave no bytes.
pub(crate) fn unread(alloc: Global, name: &[u8], fault: FileFault) -> Result<Report, Memory>
    ensures { IfOk result (IsUnreadReport fault name.now) }
{
    let name = Text::from_bytes(alloc, name)?;
    match fault {
        FileFault::Absent => refused(alloc, &Refusal::Absent(name)),
        FileFault::Failed => refused(alloc, &Refusal::Unread(name)),
        FileFault::Memory => Err(Memory),
    }
}

/// `lrat CNF PROOF`
pub(crate) fn refute<F: Files>(
    alloc: Global,
    cnf: &[u8],
    proof: &[u8],
    files: &mut F,
) -> Result<Report, Memory>
    ensures says { IfOk result (CertifiesFor cnf.now proof.now (F.state files.old) (F.state files.new)) }
    ensures read_on { HeardMore (F.state files.old).heard (F.state files.new).heard
        (AreReadOn (cnf.now ∷ (proof.now ∷ []))) }
    ensures kept { SameFiles (F.state files.old).held (F.state files.new).held }
    ensures unwritten { (F.state files.new).written ≡ (F.state files.old).written }
    ensures misses_grow { (F.state files.old).misses ≤ (F.state files.new).misses }
    ensures faults_grow { (F.state files.old).faults ≤ (F.state files.new).faults }
    ensures told { IfOk result (λ report. TellsReads report (F.state files.old).faults (F.state files.new).faults) }
{
    match files.read(alloc, cnf) {
        Ok(clauses) => match files.read(alloc, proof) {
            Ok(steps) => certify(alloc, clauses.as_slice(), steps.as_slice()),
            Err(fault) => unread(alloc, proof, fault),
        },
        Err(fault) => unread(alloc, cnf, fault),
    }
}
