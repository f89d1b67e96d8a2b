//! The names of inputs.

ghost use Rattle.std.specs.Prelude.{◌≡◌, ◌++◌, ◌∷◌, [], decimal, map, IfOk, OnOk};
ghost use Rattle.ck_design.specs.NotesForm.{bit_named};
ghost use Rattle.rvf_graph.specs.BitNames.{bit_name};

use ck_design::Note;
use fv_text::{List, Memory, Text};
use itoa::Buffer;
use std::alloc::Global;

/// A blank, and a number behind it.
fn put_number(out: &mut Vec<u8>, number: u32) -> Result<(), Memory>
    ensures { OnOk result (out.new.items ≡ out.old.items ++ 32 ∷ decimal number) }
{
    let mut buffer = Buffer::new();
    out.push(b' ')?;
    out.extend_from_slice(buffer.format(number).as_bytes())?;
    Ok(())
}

/// The name of the input that a note's bit is: `NAME CYCLE BIT`.
fn bit_name(alloc: Global, note: &Note) -> Result<Text, Memory>
    ensures { IfOk result (λ name. name ≡ bit_name (bit_named note.now)) }
{
    let mut out = Vec::from_slice(alloc, note.name.bytes())?;
    put_number(&mut out, note.cycle)?;
    put_number(&mut out, note.bit)?;
    Ok(Text::from_vec(out))
}

/// One for each note.
#[tactic(auto, using(crate::proofs::BitLines::names_step, crate::proofs::BitLines::names_end))]
pub(crate) fn bit_names(alloc: Global, notes: &[Note]) -> Result<List<Text>, Memory>
    ensures { IfOk result (λ names. names ≡ map (λ note. bit_name (bit_named note)) notes.now) }
{
    let mut names = List::new(alloc);
    for note in notes {
        let name = bit_name(alloc, note)?;
        names.push(name)?;
    }
    Ok(names)
}
