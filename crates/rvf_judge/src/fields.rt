//! The notes of a channel's fields.

ghost use Rattle.std.specs.Prelude.{◌≡◌, ◌<◌, ◌≤◌, ◌^◌, ◌*◌, ◌+◌, ◌++◌, [], slice_index_or, IfOk, OnOk};
ghost use Rattle.rvfi_port.specs.Fields as rvfi;
ghost use Rattle.ck_design.specs.Notes as notes;
ghost use Rattle.rvf_judge.specs.NoteLinesParts.{bits_from};

use bb_aig::Lit;
use ck_design::{Note, NoteLiteral};
use fv_text::{List, Memory, Text};
use rvfi_port::Field;
use std::alloc::Global;

fn literal_at(lits: &[Lit], index: u32) -> Lit
    ensures { result ≡ slice_index_or lits.now index 0 }
{
    match lits.get(index as usize) {
        Some(lit) => *lit,
        None => 0,
    }
}

/// The literal in clauses.
fn note_literal(lit: Lit) -> NoteLiteral
    ensures { result ≡ notes.literal_of lit }
{
    if lit == 0 {
        return NoteLiteral::Zero;
    }
    if lit == 1 {
        return NoteLiteral::One;
    }
    let variable = (lit / 2) as i64;
    if lit % 2 == 1 {
        NoteLiteral::Clause(-variable)
    } else {
        NoteLiteral::Clause(variable)
    }
}

fn word_at(words: &[List<Lit>], index: usize) -> &[Lit]
    ensures { result.now ≡ slice_index_or words.now index [] }
{
    match words.get(index) {
        Some(word) => word.as_slice(),
        None => &[],
    }
}

/// The number of a channel's bit among those of all channels.
#[tactic(auto, using(crate::proofs::FieldBits::few_bits, crate::proofs::FieldBits::product_small))]
fn bit_among(channel: u32, field: Field, bit: u32) -> u32
    requires channel { channel < 2 ^ 26 }
    requires bit { bit < rvfi.field_width field }
    ensures { result ≡ channel * rvfi.field_width field + bit }
{
    let first = channel * field.width();
    first + bit
}

fn bit_note(
    alloc: Global,
    channel: u32,
    cycle: u32,
    field: Field,
    lits: &[Lit],
    bit: u32,
) -> Result<Note, Memory>
    requires channel { channel < 2 ^ 26 }
    requires bit { bit < rvfi.field_width field }
    ensures { IfOk result (λ note. note ≡ record {
      literal = notes.literal_of (slice_index_or lits.now bit 0);
      cycle = cycle;
      bit = channel * rvfi.field_width field + bit;
      name = rvfi.field_name field;
    }) }
{
    let name = Text::from_bytes(alloc, field.name())?;
    Ok(Note {
        literal: note_literal(literal_at(lits, bit)),
        cycle,
        bit: bit_among(channel, field, bit),
        name,
    })
}

/// One for each of the lowest bits of a field.
#[tactic(auto, using(crate::proofs::FieldBits::bits_step, crate::proofs::FieldBits::bits_end))]
fn put_bits(
    alloc: Global,
    made: &mut List<Note>,
    channel: u32,
    cycle: u32,
    field: Field,
    lits: &[Lit],
    count: u32,
) -> Result<(), Memory>
    requires channel { channel < 2 ^ 26 }
    requires count { count ≤ rvfi.field_width field }
    ensures { OnOk result (made.new ≡ made.old ++ bits_from channel cycle field lits.now 0 count) }
{
    for bit in 0..count {
        let note = bit_note(alloc, channel, cycle, field, lits, bit)?;
        made.push(note)?;
    }
    Ok(())
}

/// One for each bit of a field.
fn put_field(
    alloc: Global,
    made: &mut List<Note>,
    channel: u32,
    cycle: u32,
    field: Field,
    lits: &[Lit],
) -> Result<(), Memory>
    requires { channel < 2 ^ 26 }
    ensures { OnOk result (made.new ≡ made.old ++ notes.bit_notes channel cycle field lits.now) }
{
    put_bits(alloc, made, channel, cycle, field, lits, field.width())
}

/// One for each bit of these fields, of which the literals are the words.
#[tactic(auto, using(crate::proofs::FieldBits::fields_step, crate::proofs::FieldBits::fields_end))]
pub(crate) fn put_fields(
    alloc: Global,
    made: &mut List<Note>,
    channel: u32,
    cycle: u32,
    fields: &[Field],
    words: &[List<Lit>],
) -> Result<(), Memory>
    requires { channel < 2 ^ 26 }
    ensures { OnOk result (made.new ≡ made.old ++ notes.field_notes channel cycle fields.now words.now) }
{
    for (index, field) in fields.iter().enumerate() {
        put_field(alloc, made, channel, cycle, *field, word_at(words, index))?;
    }
    Ok(())
}
