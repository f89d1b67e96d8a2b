//! The lines of a report on runs of every length.

ghost use Rattle.std.specs.Prelude.{◌≡◌, ◌++◌, ◌+◌, IfOk, OnOk};
ghost use Rattle.rvf_checks.specs.LengthLines as lines;

use crate::length_counts::LengthCounts;
use crate::lines::{named_line, put_count};
use fv_text::{Memory, Text};
use itoa::Buffer;
use std::alloc::Global;

/// The line of a check that no run lacks, by so many steps.
pub(crate) fn proved_line(alloc: Global, name: &[u8], steps: u32) -> Result<Text, Memory>
    ensures { IfOk result (λ line. line ≡ lines.proved_line name.now steps) }
{
    let mut front = Vec::from_slice(alloc, b"proved ")?;
    front.extend_from_slice(name)?;
    front.push(b' ')?;
    let mut buffer = Buffer::new();
    named_line(alloc, front.as_slice(), buffer.format(steps).as_bytes())
}

/// The line of a check that a step run lacks, and no run of the base.
pub(crate) fn open_line(alloc: Global, name: &[u8]) -> Result<Text, Memory>
    ensures { IfOk result (λ line. line ≡ lines.open_line name.now) }
{
    named_line(alloc, b"open ", name)
}

/// The counts behind what is there, with how many checks and depth lines are skipped.
fn put_lengths(line: &mut Vec<u8>, counts: LengthCounts, skipped: u64) -> Result<(), Memory>
    ensures { OnOk result (line.new.items ≡ line.old.items ++ lines.lengths_text counts skipped) }
{
    put_count(line, b"proved ", counts.proved)?;
    put_count(line, b" fail ", counts.failing)?;
    put_count(line, b" open ", counts.opened)?;
    put_count(line, b" spent ", counts.spent)?;
    put_count(line, b" skip ", skipped)?;
    Ok(())
}

/// The last line of `induct`.
pub(crate) fn lengths_line(
    alloc: Global,
    counts: LengthCounts,
    skipped: u64,
) -> Result<Text, Memory>
    ensures { IfOk result (λ line. line ≡ lines.lengths_line counts skipped) }
{
    let mut line = Vec::from_slice(alloc, b"total ")?;
    put_lengths(&mut line, counts, skipped)?;
    line.push(b'\n')?;
    Ok(Text::from_vec(line))
}
