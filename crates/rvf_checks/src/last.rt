//! What is delivered behind the checks.

ghost use Rattle.std.specs.Prelude.{◌≡◌, IfOk};
ghost use Rattle.rvf_checks.specs.Checked as checked;

use crate::counts::Counts;
use crate::lines::{bench_line, targets_line, total_line};
use crate::wording::Wording;
use fv_text::{List, Memory, Text};
use rvf_report::Delivery;
use std::alloc::Global;

fn last_line(alloc: Global, wording: Wording, counts: Counts, skipped: u64) -> Result<Text, Memory>
    ensures { IfOk result (λ line. line ≡ checked.last_line wording counts skipped) }
{
    match wording {
        Wording::Run => total_line(alloc, counts, skipped),
        Wording::Bench(size) => bench_line(alloc, size, counts),
        Wording::Cover => targets_line(alloc, counts),
        Wording::Zb => total_line(alloc, counts, 0),
    }
}

/// The line of counts, in these words, where so many depth lines are skipped.
pub(crate) fn last_in(
    alloc: Global,
    wording: Wording,
    counts: Counts,
    skipped: u64,
) -> Result<List<Delivery>, Memory>
    ensures { IfOk result (λ made. made ≡ checked.last_in wording counts skipped) }
{
    let line = last_line(alloc, wording, counts, skipped)?;
    let mut made = List::new(alloc);
    made.push(Delivery::Line(line))?;
    Ok(made)
}
