//! The lines of a report.

ghost use Rattle.std.specs.Prelude.{◌≡◌, ◌++◌, IfOk, OnOk};
ghost use Rattle.rvf_checks.specs.CheckLines as lines;

use crate::counts::Counts;
use fv_text::{Memory, Text};
use itoa::Buffer;
use std::alloc::Global;

/// What stands in front, and a name.
pub(crate) fn named_line(alloc: Global, front: &[u8], name: &[u8]) -> Result<Text, Memory>
    ensures { IfOk result (λ line. line ≡ lines.named_line front.now name.now) }
{
    let mut line = Vec::from_slice(alloc, front)?;
    line.extend_from_slice(name)?;
    line.push(b'\n')?;
    Ok(Text::from_vec(line))
}

/// The line of a question whose budget is used up.
pub(crate) fn spent_line(alloc: Global, name: &[u8], budget: u64) -> Result<Text, Memory>
    ensures { IfOk result (λ line. line ≡ lines.spent_line name.now budget) }
{
    let mut front = Vec::from_slice(alloc, b"spent ")?;
    front.extend_from_slice(name)?;
    front.push(b' ')?;
    let mut buffer = Buffer::new();
    named_line(alloc, front.as_slice(), buffer.format(budget).as_bytes())
}

/// The line that tells of other arithmetic operations.
pub(crate) fn note_line(alloc: Global) -> Result<Text, Memory>
    ensures { IfOk result (λ line. line ≡ lines.note_line) }
{
    Text::from_bytes(alloc, b"note altops\n")
}

/// The line of a depth line that is skipped, by its kind.
pub(crate) fn skip_line(alloc: Global, kind: &[u8]) -> Result<Text, Memory>
    ensures { IfOk result (λ line. line ≡ lines.skip_line kind.now) }
{
    named_line(alloc, b"skip ", kind)
}

/// A word and a number behind what is there.
pub(crate) fn put_count(line: &mut Vec<u8>, word: &[u8], count: u64) -> Result<(), Memory>
    ensures { OnOk result (line.new.items ≡ line.old.items ++ lines.count_text word.now count) }
{
    let mut buffer = Buffer::new();
    line.extend_from_slice(word)?;
    line.extend_from_slice(buffer.format(count).as_bytes())?;
    Ok(())
}

/// The counts behind what is there.
fn put_counts(line: &mut Vec<u8>, counts: Counts) -> Result<(), Memory>
    ensures { OnOk result (line.new.items ≡ line.old.items ++ lines.counts_text counts) }
{
    put_count(line, b"pass ", counts.never)?;
    put_count(line, b" fail ", counts.found)?;
    put_count(line, b" spent ", counts.spent)?;
    Ok(())
}

/// The last line of `run` and of `zb`, with how many depth lines are skipped.
pub(crate) fn total_line(alloc: Global, counts: Counts, skipped: u64) -> Result<Text, Memory>
    ensures { IfOk result (λ line. line ≡ lines.total_line counts skipped) }
{
    let mut line = Vec::from_slice(alloc, b"total ")?;
    put_counts(&mut line, counts)?;
    put_count(&mut line, b" skip ", skipped)?;
    line.push(b'\n')?;
    Ok(Text::from_vec(line))
}

/// The line of `bench`, with the number of words of its design.
pub(crate) fn bench_line(alloc: Global, size: u32, counts: Counts) -> Result<Text, Memory>
    ensures { IfOk result (λ line. line ≡ lines.bench_line size counts) }
{
    let mut line = Vec::new(alloc);
    put_count(&mut line, b"bench ", u64::from(size))?;
    line.push(b' ')?;
    put_counts(&mut line, counts)?;
    line.push(b'\n')?;
    Ok(Text::from_vec(line))
}

/// The counts of targets behind what is there.
fn put_targets(line: &mut Vec<u8>, counts: Counts) -> Result<(), Memory>
    ensures { OnOk result (line.new.items ≡ line.old.items ++ lines.targets_text counts) }
{
    put_count(line, b"reached ", counts.found)?;
    put_count(line, b" unreached ", counts.never)?;
    put_count(line, b" spent ", counts.spent)?;
    Ok(())
}

/// The last line of `cover`.
pub(crate) fn targets_line(alloc: Global, counts: Counts) -> Result<Text, Memory>
    ensures { IfOk result (λ line. line ≡ lines.targets_line counts) }
{
    let mut line = Vec::from_slice(alloc, b"total ")?;
    put_targets(&mut line, counts)?;
    line.push(b'\n')?;
    Ok(Text::from_vec(line))
}
