ghost use Rattle.std.specs.Prelude.{◌≡◌, ◌<◌, ◌^◌, IfOk};
ghost use Rattle.ck_design.specs.Notes.{notes_of};

use crate::choice::choice_notes;
use crate::fields::put_fields;
use bb_aig::Lit;
use bm_decide::ChoiceBits;
use ck_design::Note;
use fv_text::{List, Memory};
use rvfi_port::Field;
use std::alloc::Global;
use wn_net::Names;

/// The notes of the choices, and of the fields of a channel in a cycle, whose literals these are.
pub(crate) fn notes_of(
    alloc: Global,
    names: &Names,
    bits: &ChoiceBits,
    fields: &[List<Lit>],
    channel: u32,
    cycle: u32,
) -> Result<List<Note>, Memory>
    requires { channel < 2 ^ 26 }
    ensures { IfOk result (λ notes. notes ≡ notes_of names.now bits.now channel cycle fields.now) }
{
    let mut notes = choice_notes(
        alloc,
        names,
        bits.sources.as_slice(),
        bits.places.as_slice(),
    )?;
    put_fields(alloc, &mut notes, channel, cycle, &Field::CHANNEL, fields)?;
    Ok(notes)
}
