//! What a refusal says, and its line.

ghost use Rattle.std.specs.Prelude.{◌≡◌, ◌++◌, IfOk, map};
ghost use Rattle.rvf_report.specs.Printed as printed;

use crate::word::{detail, put_end, put_number, put_word};
use fv_text::{List, Memory, Pos, Text};
use itoa::Buffer;
use std::alloc::Global;

/// What a refusal says: its number, its place where it has one, and its other values.
#[derive(Drop)]
pub(crate) struct Says {
    pub(crate) number: u32,
    pub(crate) place: Option<Pos>,
    pub(crate) values: List<Text>,
}

/// `FILE:LINE:COL`, by the names of the files.
pub(crate) fn place_text(alloc: Global, names: &[Text], place: Pos) -> Result<Text, Memory>
    ensures { IfOk result (λ text. text ≡ printed.place_text names.now place) }
{
    let mut buffer = Buffer::new();
    let mut text = Vec::new(alloc);
    if let Some(name) = names.get(place.file as usize) {
        text.extend_from_slice(name.bytes())?;
    }
    text.push(b':')?;
    text.extend_from_slice(buffer.format(place.line).as_bytes())?;
    text.push(b':')?;
    text.extend_from_slice(buffer.format(place.col).as_bytes())?;
    Ok(Text::from_vec(text))
}

/// Places as values.
pub(crate) fn place_texts(
    alloc: Global,
    names: &[Text],
    places: &[Pos],
) -> Result<List<Text>, Memory>
    ensures { IfOk result (λ values. values ≡ map (printed.place_text names.now) places.now) }
{
    let mut values = List::new(alloc);
    for place in places {
        values.push(place_text(alloc, names, *place)?)?;
    }
    Ok(values)
}

/// `-` where there is none.
fn optional_place(alloc: Global, names: &[Text], place: Option<Pos>) -> Result<Text, Memory>
    ensures { IfOk result (λ text. text ≡ printed.optional_place names.now place) }
{
    match place {
        Some(place) => place_text(alloc, names, place),
        None => Text::from_bytes(alloc, b"-"),
    }
}

/// The line of a part that refuses.
pub(crate) fn source_line(
    alloc: Global,
    names: &[Text],
    part: &[u8],
    says: &Says,
) -> Result<Text, Memory>
    ensures { IfOk result (λ line. line ≡ printed.source_line names.now part.now (record {
      number = says.now.number;
      place = says.now.place;
      values = says.now.values;
    })) }
{
    let place = optional_place(alloc, names, says.place)?;
    let values = detail(alloc, says.values.as_slice())?;
    let mut line = Vec::new(alloc);
    put_word(&mut line, b"source")?;
    put_word(&mut line, part)?;
    put_number(&mut line, says.number as u64)?;
    put_word(&mut line, place.bytes())?;
    put_end(&mut line, values.as_slice())?;
    Ok(Text::from_vec(line))
}
