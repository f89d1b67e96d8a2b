//! The configuration and its files.

ghost use Rattle.std.specs.Prelude.{◌≡◌, ◌≤◌, IfOk};
ghost use Rattle.fv_base.specs.Outside.{SameFiles};
ghost use Rattle.ck_cfg.specs.Lawful.{HasLawfulChecks};
ghost use Rattle.rvf_case.specs.Cases.{UnlessUnread, seen_between};
ghost use Rattle.rvf_case.specs.Hearing.{HeardMore};
ghost use Rattle.rvf_case.specs.Steps.{Becomes, Configures, ReadsFile, ReadsFiles, of_config};

use crate::refusal::Refusal;
use ck_cfg::{CfgFault, Config, read_cfg};
use fv_base::{FileFault, Files};
use fv_text::{List, Text};
use std::alloc::Global;

/// Why a file isn't read.
fn unread(alloc: Global, name: &[u8], fault: FileFault) -> Refusal
    ensures { Becomes result fault name.now }
{
    let Ok(name) = Text::from_bytes(alloc, name) else {
        return Refusal::Memory;
    };
    match fault {
        FileFault::Absent => Refusal::Absent(name),
        FileFault::Failed => Refusal::Unread(name),
        FileFault::Memory => Refusal::Memory,
    }
}

/// The bytes of a file.
fn read_file<F: Files>(alloc: Global, name: &[u8], files: &mut F) -> Result<Text, Refusal>
    ensures reads { HeardMore (F.state files.old).heard (F.state files.new).heard
        (λ events. ReadsFile name.now (seen_between (F.state files.old) (F.state files.new)) events result) }
    ensures kept { SameFiles (F.state files.old).held (F.state files.new).held }
    ensures unwritten { (F.state files.new).written ≡ (F.state files.old).written }
    ensures misses_grow { (F.state files.old).misses ≤ (F.state files.new).misses }
    ensures faults_grow { (F.state files.old).faults ≤ (F.state files.new).faults }
    ensures quiet { UnlessUnread result ((F.state files.new).faults ≡ (F.state files.old).faults) }
{
    match files.read(alloc, name) {
        Ok(bytes) => Ok(Text::from_vec(bytes)),
        Err(fault) => Err(unread(alloc, name, fault)),
    }
}

/// The bytes of some files, in their order.
pub(crate) fn read_files<F: Files>(
    alloc: Global,
    names: &[Text],
    files: &mut F,
) -> Result<List<Text>, Refusal>
    ensures reads { HeardMore (F.state files.old).heard (F.state files.new).heard
        (λ events. ReadsFiles names.now (seen_between (F.state files.old) (F.state files.new)) events result) }
    ensures kept { SameFiles (F.state files.old).held (F.state files.new).held }
    ensures unwritten { (F.state files.new).written ≡ (F.state files.old).written }
    ensures misses_grow { (F.state files.old).misses ≤ (F.state files.new).misses }
    ensures faults_grow { (F.state files.old).faults ≤ (F.state files.new).faults }
    ensures quiet { UnlessUnread result ((F.state files.new).faults ≡ (F.state files.old).faults) }
{
    let mut texts = List::new(alloc);
    for name in names {
        let text = read_file(alloc, name.bytes(), files)?;
        texts.push(text)?;
    }
    Ok(texts)
}

fn misconfigured(fault: CfgFault) -> Refusal
    ensures { result ≡ of_config fault }
{
    match fault {
        CfgFault::Memory => Refusal::Memory,
        fault => Refusal::Config(fault),
    }
}

/// The configuration that a file says, or why it says none: the file gives no bytes, or its bytes are refused.
pub fn read_config<F: Files>(alloc: Global, cfg: &[u8], files: &mut F) -> Result<Config, Refusal>
    ensures configures { HeardMore (F.state files.old).heard (F.state files.new).heard
        (λ events. Configures cfg.now (seen_between (F.state files.old) (F.state files.new)) events result) }
    ensures lawful { IfOk result (λ config. HasLawfulChecks config) }
    ensures channels { IfOk result (λ config. 1 ≤ config.nret × config.nret ≤ 2) }
    ensures kept { SameFiles (F.state files.old).held (F.state files.new).held }
    ensures unwritten { (F.state files.new).written ≡ (F.state files.old).written }
    ensures misses_grow { (F.state files.old).misses ≤ (F.state files.new).misses }
    ensures faults_grow { (F.state files.old).faults ≤ (F.state files.new).faults }
    ensures quiet { UnlessUnread result ((F.state files.new).faults ≡ (F.state files.old).faults) }
{
    let text = read_file(alloc, cfg, files)?;
    match read_cfg(alloc, text.bytes()) {
        Ok(config) => Ok(config),
        Err(fault) => Err(misconfigured(fault)),
    }
}
