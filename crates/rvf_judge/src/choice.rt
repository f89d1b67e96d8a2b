//! The notes of choices.

ghost use Rattle.std.specs.Prelude.{◌≡◌, [], pos, slice_get, slice_index, slice_index_or, IfOk};
ghost use Rattle.vl_lower_spec.specs.Maps.{cells_named, text_of};
ghost use Rattle.ck_design.specs.Notes as notes;
ghost use Rattle.ck_design.specs.declared.note.NoteLiteral.TheVariants as note_literal;
ghost use Rattle.rvf_judge.specs.NoteLinesParts.{placed_notes};

use crate::cell::{cell_name, no_name};
use bb_blast::Placed;
use bm_unroll::Source;
use ck_design::{Note, NoteLiteral};
use fv_text::{List, Memory, Text};
use std::alloc::Global;
use wn_net::{Names, NetName, Spot};

fn number_at(numbers: &[u32], index: u32) -> u32
    ensures { result ≡ slice_index numbers.now index }
{
    match numbers.get(index as usize) {
        Some(number) => *number,
        None => 0,
    }
}

fn source_at(sources: &[Source], index: u32) -> Option<Source>
    ensures { result ≡ slice_get sources.now index }
{
    sources.get(index as usize).copied()
}

/// The name at a place of the list, or no name past its end.
fn name_at(alloc: Global, names: &[NetName], place: u32) -> Result<Text, Memory>
    ensures { IfOk result (λ made. made ≡ text_of (slice_get names.now place)) }
{
    match names.get(place as usize) {
        Some(name) => name.text.copied(alloc),
        None => Ok(no_name(alloc)),
    }
}

/// The name of a memory's word.
#[tactic(auto, using(crate::proofs::Words::none_at))]
fn word_name(alloc: Global, names: &Names, mem: u32, word: u32) -> Result<Text, Memory>
    ensures { IfOk result (λ made. made ≡ slice_index_or
        (cells_named (slice_get names.now.list (slice_index names.now.mems mem))) word []) }
{
    let place = number_at(names.mems.as_slice(), mem);
    match names.list.get(place as usize) {
        Some(name) => cell_name(alloc, name, word),
        None => Ok(no_name(alloc)),
    }
}

/// Variables are below `2^63`.
const MOST_NODES: u64 = 1 << 63;

/// The variable of a node. No memory holds a graph with a node past the last variable.
fn literal_of(node: u64) -> Result<NoteLiteral, Memory>
    ensures { IfOk result (λ it. it ≡ note_literal.Clause (pos node)) }
{
    if node >= MOST_NODES {
        return Err(Memory);
    }
    Ok(NoteLiteral::Clause(node as i64))
}

/// The note of a bit that has no name.
fn bare_note(alloc: Global, place: Placed) -> Result<Note, Memory>
    ensures { IfOk result (λ note. note
        ≡ record { literal = note_literal.Clause (pos place.node); cycle = 0; bit = place.bit; name = [] }) }
{
    let literal = literal_of(place.node)?;
    Ok(Note {
        literal,
        cycle: 0,
        bit: place.bit,
        name: no_name(alloc),
    })
}

/// The note of a bit of an input or of a register, by its number.
fn spot_note(
    alloc: Global,
    names: &Names,
    spots: &[Spot],
    number: u32,
    cycle: u32,
    place: Placed,
) -> Result<Note, Memory>
    ensures { IfOk result (λ note. note ≡ notes.spot_note names.now (slice_get spots.now number) cycle place) }
{
    let literal = literal_of(place.node)?;
    match spots.get(number as usize) {
        Some(spot) => {
            let name = name_at(alloc, names.list.as_slice(), spot.name)?;
            let bit = number_at(spot.bits.as_slice(), place.bit);
            Ok(Note {
                literal,
                cycle,
                bit,
                name,
            })
        }
        None => Ok(Note {
            literal,
            cycle,
            bit: place.bit,
            name: no_name(alloc),
        }),
    }
}

/// The note of a bit of a memory's word.
fn word_note(
    alloc: Global,
    names: &Names,
    mem: u32,
    word: u32,
    place: Placed,
) -> Result<Note, Memory>
    ensures { IfOk result (λ note. note ≡ notes.word_note names.now mem word place) }
{
    let literal = literal_of(place.node)?;
    let name = word_name(alloc, names, mem, word)?;
    Ok(Note {
        literal,
        cycle: 0,
        bit: place.bit,
        name,
    })
}

fn source_note(
    alloc: Global,
    names: &Names,
    source: Option<Source>,
    place: Placed,
) -> Result<Note, Memory>
    ensures { IfOk result (λ note. note ≡ notes.source_note names.now source place) }
{
    let inputs = names.inputs.as_slice();
    let regs = names.regs.as_slice();
    match source {
        None => bare_note(alloc, place),
        Some(Source::Each(input, cycle)) => spot_note(alloc, names, inputs, input, cycle, place),
        Some(Source::Once(input)) => spot_note(alloc, names, inputs, input, 0, place),
        Some(Source::RegStart(reg)) => spot_note(alloc, names, regs, reg, 0, place),
        Some(Source::WordStart(mem, word)) => word_note(alloc, names, mem, word, place),
    }
}

/// The notes of choices: one for each bit that is placed, in the order of the places.
#[tactic(auto, using(crate::proofs::Choices::choices_step, crate::proofs::Choices::choices_end))]
pub fn choice_notes(
    alloc: Global,
    names: &Names,
    sources: &[Source],
    places: &[Placed],
) -> Result<List<Note>, Memory>
    ensures { IfOk result (λ made. made
        ≡ placed_notes names.now sources.now places.now) }
{
    let mut made = List::new(alloc);
    for place in places {
        let source = source_at(sources, place.source);
        let note = source_note(alloc, names, source, *place)?;
        made.push(note)?;
    }
    Ok(made)
}
