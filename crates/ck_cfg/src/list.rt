//! The list of checks.

ghost use Rattle.std.specs.Prelude.{◌≡◌, ◌++◌, OnOk, IfOk, find};
ghost use Rattle.ck_cfg.specs.Depths.{is_for};
ghost use Rattle.ck_cfg.specs.Checks.{depth_for, row_part, check_name, channel_check, channel_checks, row_checks};
ghost use Rattle.ck_cfg.specs.Checks.{kind_checks, checks_of};
ghost use Rattle.ck_cfg.specs.declared.kind.CheckKind.TheVariants.{Insn};

use crate::check::Check;
use crate::config::{Config, Depth};
use crate::kind::CheckKind;
use crate::sort::moved;
use fv_text::{List, Memory, Text};
use itoa::Buffer;
use rv_table::{RowId, row_name};
use std::alloc::Global;

/// The checks of a configuration: the kinds in their order, the rows of the instruction set in theirs, and the channels
/// inside each; but those that the configuration names come first.
pub fn checks(alloc: Global, config: &Config) -> Result<List<Check>, Memory>
    ensures { IfOk result (λ checks. checks ≡ checks_of config.now) }
{
    let mut checks = List::new(alloc);
    for kind in CheckKind::all() {
        put_kind(alloc, config, *kind, &mut checks)?;
    }
    moved(alloc, config.sort.as_slice(), checks)
}

fn put_kind(
    alloc: Global,
    config: &Config,
    kind: CheckKind,
    checks: &mut List<Check>,
) -> Result<(), Memory>
    ensures { OnOk result (checks.new ≡ checks.old ++ kind_checks config.now kind) }
{
    if kind.is(CheckKind::Insn) {
        put_rows(alloc, config, checks)
    } else {
        put_channels(alloc, config, kind, None, checks)
    }
}

fn put_rows(alloc: Global, config: &Config, checks: &mut List<Check>) -> Result<(), Memory>
    ensures { OnOk result (checks.new ≡ checks.old ++ kind_checks config.now Insn) }
{
    for row in RowId::all() {
        put_row(alloc, config, *row, checks)?;
    }
    Ok(())
}

/// The checks of a row, if the instruction set has it.
fn put_row(
    alloc: Global,
    config: &Config,
    row: RowId,
    checks: &mut List<Check>,
) -> Result<(), Memory>
    ensures { OnOk result (checks.new ≡ checks.old ++ row_checks config.now row) }
{
    if !config.isa.has(row) {
        return Ok(());
    }
    put_channels(alloc, config, CheckKind::Insn, Some(row), checks)
}

fn put_channels(
    alloc: Global,
    config: &Config,
    kind: CheckKind,
    row: Option<RowId>,
    checks: &mut List<Check>,
) -> Result<(), Memory>
    ensures { OnOk result (checks.new ≡ checks.old ++ channel_checks config.now kind row) }
{
    for channel in 0..config.nret {
        put_check(alloc, config.depths.as_slice(), kind, row, channel, checks)?;
    }
    Ok(())
}

fn put_check(
    alloc: Global,
    depths: &[Depth],
    kind: CheckKind,
    row: Option<RowId>,
    channel: u32,
    checks: &mut List<Check>,
) -> Result<(), Memory>
    ensures { OnOk result (checks.new ≡ checks.old ++ channel_check depths.now kind row channel) }
{
    let Some(depth) = depth_for(depths, kind, channel) else {
        return Ok(());
    };
    checks.push(Check {
        name: check_name(alloc, kind, row, channel)?,
        kind,
        row,
        channel,
        start: depth.start,
        trig: depth.trig,
        cycle: depth.cycle,
    })
}

/// The channel's own line, or else the one without a channel.
fn depth_for(depths: &[Depth], kind: CheckKind, channel: u32) -> Option<Depth>
    ensures { result ≡ depth_for depths.now kind channel }
{
    match depth_of(depths, kind, Some(channel)) {
        Some(depth) => Some(depth),
        None => depth_of(depths, kind, None),
    }
}

fn depth_of(depths: &[Depth], kind: CheckKind, channel: Option<u32>) -> Option<Depth>
    ensures { result ≡ find (is_for kind channel) depths.now }
{
    depths
        .iter()
        .copied()
        .find(|depth| depth.is_for(kind, channel))
}

fn check_name(
    alloc: Global,
    kind: CheckKind,
    row: Option<RowId>,
    channel: u32,
) -> Result<Text, Memory>
    ensures { IfOk result (λ name. name ≡ check_name kind row channel) }
{
    let mut name = Vec::from_slice(alloc, kind.name())?;
    put_row_part(&mut name, row)?;
    name.extend_from_slice(b"_ch")?;
    let mut buffer = Buffer::new();
    name.extend_from_slice(buffer.format(channel).as_bytes())?;
    Ok(Text::from_vec(name))
}

fn put_row_part(name: &mut Vec<u8>, row: Option<RowId>) -> Result<(), Memory>
    ensures { OnOk result (name.new.items ≡ name.old.items ++ row_part row) }
{
    if let Some(row) = row {
        name.push(b'_')?;
        name.extend_from_slice(row_name(row).as_bytes())?;
    }
    Ok(())
}
