//! The list of targets.

ghost use Rattle.std.specs.Prelude.{◌≡◌, ◌++◌, OnOk, IfOk};
ghost use Rattle.ck_cover.specs.Targets as wanted;

use crate::target::Target;
use ck_cfg::{Check, CheckKind};
use fv_text::{List, Memory, Text};
use itoa::Buffer;
use rv_table::{RowId, row_name};
use std::alloc::Global;

/// The targets of a list of checks: for each kind that has one, in the order of the kinds, `any_KIND` with the greatest
/// cycle of its checks, and then for each insn check, in the order of the list, `hit_ROW_chN` with its own.
pub fn targets(alloc: Global, checks: &[Check]) -> Result<List<Target>, Memory>
    ensures { IfOk result (λ all. all ≡ wanted.targets_of checks.now) }
{
    let mut all = List::new(alloc);
    put_any(alloc, checks, &mut all)?;
    put_hits(alloc, checks, &mut all)?;
    Ok(all)
}

fn put_any(alloc: Global, checks: &[Check], all: &mut List<Target>) -> Result<(), Memory>
    ensures { OnOk result (all.new ≡ all.old ++ wanted.any_targets checks.now) }
{
    for kind in CheckKind::all() {
        put_kind(alloc, checks, *kind, all)?;
    }
    Ok(())
}

fn put_kind(
    alloc: Global,
    checks: &[Check],
    kind: CheckKind,
    all: &mut List<Target>,
) -> Result<(), Memory>
    ensures { OnOk result (all.new ≡ all.old ++ wanted.any_of checks.now kind) }
{
    let Some(cycle) = greatest(kind, checks) else {
        return Ok(());
    };
    all.push(Target {
        name: any_name(alloc, kind)?,
        kind,
        row: None,
        channel: 0,
        cycle,
    })
}

/// The greatest cycle of a check of the kind.
#[tactic(auto, using(crate::proofs::Greatest::greatest_on))]
fn greatest(kind: CheckKind, checks: &[Check]) -> Option<u32>
    ensures { result ≡ wanted.greatest kind checks.now }
{
    let mut best = None;
    for check in checks {
        best = with_check(best, kind, check);
    }
    best
}

/// The greater one of a number and a check's cycle, where the check is of the kind.
fn with_check(best: Option<u32>, kind: CheckKind, check: &Check) -> Option<u32>
    ensures { result ≡ wanted.greater best (wanted.cycle_for kind check.now) }
{
    if check.kind.is(kind) {
        Some(greater(best, check.cycle))
    } else {
        best
    }
}

fn greater(best: Option<u32>, cycle: u32) -> u32
    ensures { result ≡ wanted.greater_by best cycle }
{
    match best {
        Some(best) => best.max(cycle),
        None => cycle,
    }
}

fn any_name(alloc: Global, kind: CheckKind) -> Result<Text, Memory>
    ensures { IfOk result (λ name. name ≡ wanted.any_name kind) }
{
    let mut name = Vec::from_slice(alloc, b"any_")?;
    name.extend_from_slice(kind.name())?;
    Ok(Text::from_vec(name))
}

fn put_hits(alloc: Global, checks: &[Check], all: &mut List<Target>) -> Result<(), Memory>
    ensures { OnOk result (all.new ≡ all.old ++ wanted.hit_targets checks.now) }
{
    for check in checks {
        put_hit(alloc, check, all)?;
    }
    Ok(())
}

/// The target of an insn check.
fn put_hit(alloc: Global, check: &Check, all: &mut List<Target>) -> Result<(), Memory>
    ensures { OnOk result (all.new ≡ all.old ++ wanted.hit_of check.now) }
{
    let Some(row) = hit_row(check) else {
        return Ok(());
    };
    all.push(Target {
        name: hit_name(alloc, row, check.channel)?,
        kind: CheckKind::Insn,
        row: Some(row),
        channel: check.channel,
        cycle: check.cycle,
    })
}

fn hit_row(check: &Check) -> Option<RowId>
    ensures { result ≡ wanted.hit_row check.now }
{
    if check.kind.is(CheckKind::Insn) {
        check.row
    } else {
        None
    }
}

fn hit_name(alloc: Global, row: RowId, channel: u32) -> Result<Text, Memory>
    ensures { IfOk result (λ name. name ≡ wanted.hit_name row channel) }
{
    let mut name = Vec::from_slice(alloc, b"hit_")?;
    name.extend_from_slice(row_name(row).as_bytes())?;
    name.extend_from_slice(b"_ch")?;
    let mut buffer = Buffer::new();
    name.extend_from_slice(buffer.format(channel).as_bytes())?;
    Ok(Text::from_vec(name))
}
