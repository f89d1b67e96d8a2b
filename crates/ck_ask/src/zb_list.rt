//! The checks of the rows of Zba and Zbs.

ghost use Rattle.std.specs.Prelude.{◌≡◌, ◌++◌, OnOk, IfOk, find, option_map};
ghost use Rattle.ck_ask.specs.ZbChecks as listed;

use crate::zb_check::ZbCheck;
use ck_cfg::{Check, CheckKind};
use fv_text::{List, Memory, Text};
use itoa::Buffer;
use rv_zb::{ZbRow, zb_name};
use std::alloc::Global;

/// The checks of the rows of Zba and Zbs beside these checks: the rows in order, and in each those of so many channels
/// that have an insn check, with its cycle.
pub fn zb_checks(alloc: Global, checks: &[Check], channels: u32) -> Result<List<ZbCheck>, Memory>
    ensures { IfOk result (λ made. made ≡ listed.zb_checks_of checks.now channels) }
{
    let mut made = List::new(alloc);
    for row in ZbRow::all() {
        put_row(alloc, checks, channels, *row, &mut made)?;
    }
    Ok(made)
}

fn put_row(
    alloc: Global,
    checks: &[Check],
    channels: u32,
    row: ZbRow,
    made: &mut List<ZbCheck>,
) -> Result<(), Memory>
    ensures { OnOk result (made.new ≡ made.old ++ listed.zb_row_checks checks.now channels row) }
{
    for channel in 0..channels {
        put_check(alloc, checks, row, channel, made)?;
    }
    Ok(())
}

fn put_check(
    alloc: Global,
    checks: &[Check],
    row: ZbRow,
    channel: u32,
    made: &mut List<ZbCheck>,
) -> Result<(), Memory>
    ensures { OnOk result (made.new ≡ made.old ++ listed.zb_channel_check checks.now row channel) }
{
    let Some(cycle) = insn_cycle(checks, channel) else {
        return Ok(());
    };
    made.push(ZbCheck {
        name: check_name(alloc, row, channel)?,
        row,
        channel,
        cycle,
    })
}

/// The cycle of the first insn check of the channel.
fn insn_cycle(checks: &[Check], channel: u32) -> Option<u32>
    ensures { result ≡ option_map (λ c. c.cycle) (find (listed.is_insn_at channel) checks.now) }
{
    checks
        .iter()
        .find(|check| is_insn_at(check, channel))
        .map(|check| check.cycle)
}

fn is_insn_at(check: &Check, channel: u32) -> bool
    ensures { result ≡ listed.is_insn_at channel check.now }
{
    check.kind.is(CheckKind::Insn) && check.channel == channel
}

fn check_name(alloc: Global, row: ZbRow, channel: u32) -> Result<Text, Memory>
    ensures { IfOk result (λ name. name ≡ listed.zb_check_name row channel) }
{
    let mut name = Vec::from_slice(alloc, b"insn_")?;
    name.extend_from_slice(zb_name(row).as_bytes())?;
    name.extend_from_slice(b"_ch")?;
    let mut buffer = Buffer::new();
    name.extend_from_slice(buffer.format(channel).as_bytes())?;
    Ok(Text::from_vec(name))
}
