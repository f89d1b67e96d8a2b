ghost use Rattle.std.specs.Prelude.{◌≡◌, ℕ, ◌≤◌, ◌<◌, ◌&&◌, true, false, None, IfOk, IfSome};
ghost use Rattle.fv_bit_sets.specs.Cells.{has, AreRising, IsBare, IsBefore};
ghost use Rattle.fv_bit_sets.specs.Runs.{KeepsTo};
ghost use Rattle.fv_bit_sets.specs.Ways.{Joins};
ghost use Rattle.fv_bit_sets.specs.declared.how.How.TheVariants as h;

use crate::how::How;
use crate::put::put;
use crate::run::{Run, run_at};
use crate::step::Step;
use fv_text::Memory;
use std::alloc::Global;

/// The smaller one; None stands behind all others.
fn earlier(first: Option<u64>, second: Option<u64>) -> Option<u64>
    ensures inside { (cell : ℕ) → IsBefore cell result → IsBefore cell first × IsBefore cell second }
    ensures one { (cell : ℕ) → IsBefore cell first → IsBefore cell second → IsBefore cell result }
{
    match (first, second) {
        (None, other) => other,
        (one, None) => one,
        (Some(one), Some(other)) => { if one < other { Some(one) } else { Some(other) } }
    }
}

/// Up to where the bits of both stay as they are here: where one set has none, what the other one has doesn't count.
fn past_of_both(left: Run, right: Run) -> Option<u64>
    ensures same { KeepsTo h.Both left right result }
    ensures one { (cell : ℕ) → IsBefore cell left.past → IsBefore cell right.past → IsBefore cell result }
{
    if left.mask == 0 {
        return left.past;
    }
    if right.mask == 0 {
        return right.past;
    }
    earlier(left.past, right.past)
}

/// The same of the bits of the first alone.
fn past_of_first(left: Run, right: Run) -> Option<u64>
    ensures same { KeepsTo h.FirstAlone left right result }
    ensures one { (cell : ℕ) → IsBefore cell left.past → IsBefore cell right.past → IsBefore cell result }
{
    if left.mask == 0 {
        return left.past;
    }
    earlier(left.past, right.past)
}

/// Up to where the bits that are taken stay as they are here.
fn past_of(how: How, left: Run, right: Run) -> Option<u64>
    ensures same { KeepsTo how left right result }
    ensures one { (cell : ℕ) → IsBefore cell left.past → IsBefore cell right.past → IsBefore cell result }
{
    match how {
        How::Either => earlier(left.past, right.past),
        How::Both => past_of_both(left, right),
        How::FirstAlone => past_of_first(left, right),
    }
}

/// Steps of the bits of both sets, taken so: from one cell where they change to the next.
pub(crate) fn joined(
    alloc: Global,
    how: How,
    first: &[Step],
    second: &[Step],
) -> Result<Vec<Step>, Memory>
    requires first { AreRising 0 None first.now }
    requires second { AreRising 0 None second.now }
    ensures { IfOk result (λ made. Joins how first.now second.now made.items) }
{
    let mut made = Vec::new(alloc);
    let mut next = Some(0);
    while let Some(cell) = next {
        let left = run_at(first, cell);
        let right = run_at(second, cell);
        let mask = how.of(left.mask, right.mask);
        put(&mut made, Step { cell, mask })?;
        next = past_of(how, left, right);
    }
    Ok(made)
}

/// The first cell from there on that has a bit. None exactly where none has one.
pub(crate) fn first_in(steps: &[Step], from: u64) -> Option<u64>
    requires { AreRising 0 None steps.now }
    ensures found { IfSome result (λ cell. (from ≤ cell) × ((bit : ℕ) × (has steps.now cell bit ≡ true))) }
    ensures first { (cell : ℕ) → from ≤ cell → IsBefore cell result → IsBare steps.now cell }
{
    let mut next = Some(from);
    while let Some(cell) = next {
        let run = run_at(steps, cell);
        if run.mask != 0 {
            return Some(cell);
        }
        next = run.past;
    }
    None
}

/// Whether some of these cells has a bit in both sets.
pub(crate) fn meet_in(first: &[Step], second: &[Step], from: u64, past: u64) -> bool
    requires first { AreRising 0 None first.now }
    requires second { AreRising 0 None second.now }
    ensures some { result ≡ true → (cell : ℕ) × (bit : ℕ) × (from ≤ cell) × (cell < past)
        × (has first.now cell bit ≡ true) × (has second.now cell bit ≡ true) }
    ensures none { result ≡ false → (cell bit : ℕ) → from ≤ cell → cell < past
        → (has first.now cell bit && has second.now cell bit) ≡ false }
{
    let mut next = Some(from);
    while let Some(cell) = next {
        if past <= cell {
            return false;
        }
        let left = run_at(first, cell);
        let right = run_at(second, cell);
        if left.mask & right.mask != 0 {
            return true;
        }
        next = earlier(left.past, right.past);
    }
    false
}
