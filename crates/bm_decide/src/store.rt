//! Numbers at the places of sources.

ghost use Rattle.std.specs.Prelude.{◌≡◌, ◌<◌, ℕ, [], length, slice_index, slice_index_or, OnOk};
ghost use Rattle.tr_replay.specs.Traces.{choices_of};
ghost use Rattle.bm_unroll.specs.declared.frames.Source.{Source};
ghost use Rattle.bm_unroll.specs.Frames.{chosen};
ghost use Rattle.bm_decide.specs.ChosenParts.{put_at, put_at_both};

use bm_unroll::Source;
use fv_text::{List, Memory};
use std::alloc::Global;
use tr_replay::Chosen;

/// Adds zeros until the place is there.
fn pad(numbers: &mut List<u128>, index: u32) -> Result<(), Memory>
    ensures there { OnOk result (index < length numbers.new) }
    ensures same { OnOk result ((i : ℕ) → slice_index numbers.new i ≡ slice_index numbers.old i) }
{
    while numbers.len() <= index as usize {
        numbers.push(0)?;
    }
    Ok(())
}

/// Puts the number at the place, and zeros at those before it that aren't there.
fn put(numbers: &mut List<u128>, index: u32, number: u128) -> Result<(), Memory>
    ensures { OnOk result ((i : ℕ) → slice_index numbers.new i
        ≡ put_at (slice_index numbers.old) index number i) }
{
    pad(numbers, index)?;
    if let Some(place) = numbers.get_mut(index as usize) {
        *place = number;
    }
    Ok(())
}

/// Adds empty rows until the row is there.
fn pad_rows(alloc: Global, rows: &mut List<List<u128>>, index: u32) -> Result<(), Memory>
    ensures there { OnOk result (index < length rows.new) }
    ensures same { OnOk result ((i : ℕ) → slice_index_or rows.new i [] ≡ slice_index_or rows.old i []) }
{
    while rows.len() <= index as usize {
        rows.push(List::new(alloc))?;
    }
    Ok(())
}

/// Puts the number at the place of the row.
fn put_in_row(
    alloc: Global,
    rows: &mut List<List<u128>>,
    row: u32,
    index: u32,
    number: u128,
) -> Result<(), Memory>
    ensures { OnOk result ((r i : ℕ) → slice_index (slice_index_or rows.new r []) i
        ≡ put_at_both (λ k. slice_index (slice_index_or rows.old k [])) row index number r i) }
{
    pad_rows(alloc, rows, row)?;
    match rows.get_mut(row as usize) {
        Some(numbers) => put(numbers, index, number),
        None => Ok(()),
    }
}

/// Gives the source its number, and leaves all others as they are.
pub(crate) fn put_source(
    alloc: Global,
    made: &mut Chosen,
    source: Source,
    number: u128,
) -> Result<(), Memory>
    ensures own { OnOk result (chosen (choices_of made.new) source ≡ number) }
    ensures others { OnOk result ((x : Source) → (x ≡ source → ⊥)
        → chosen (choices_of made.new) x ≡ chosen (choices_of made.old) x) }
{
    match source {
        Source::Each(input, cycle) => put_in_row(alloc, &mut made.each_cycle, cycle, input, number),
        Source::Once(input) => put(&mut made.once, input, number),
        Source::RegStart(reg) => put(&mut made.regs, reg, number),
        Source::WordStart(mem, word) => put_in_row(alloc, &mut made.words, mem, word, number),
    }
}
