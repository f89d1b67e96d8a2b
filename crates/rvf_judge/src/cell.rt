//! The names of what holds numbers: of a vector its own, and of a memory those of its words.

ghost use Rattle.std.specs.Prelude.{◌≡◌, ◌+◌, [], int_le, slice_index_or, IfOk, Some};
ghost use Rattle.vl_mean.specs.Cells.{cells_of};
ghost use Rattle.vl_size.specs.Table.{span, word_name};
ghost use Rattle.rvf_judge.specs.Words.{index_at};

use fv_text::{Memory, Text};
use itoa::Buffer;
use std::alloc::Global;
use wn_net::NetName;

/// The declared index of the word so many places from the left bound.
fn index_at(range: (i64, i64), place: u32) -> i128
    ensures { result ≡ index_at (int_le range.0 range.1) range.0 place }
{
    let left = i128::from(range.0);
    let place = i128::from(place);
    if range.0 <= range.1 {
        left + place
    } else {
        left - place
    }
}

/// How many places the right bound is from the left one.
fn distance(range: (i64, i64)) -> u128
    ensures { result + 1 ≡ span range.0 range.1 }
{
    (i128::from(range.0) - i128::from(range.1)).unsigned_abs()
}

/// The name of a memory's word.
fn word_name(alloc: Global, memory: &Text, index: i128) -> Result<Text, Memory>
    ensures { IfOk result (λ made. made ≡ word_name memory.now index) }
{
    let mut buffer = Buffer::new();
    let mut text = Vec::from_slice(alloc, memory.bytes())?;
    text.push(b'[')?;
    text.extend_from_slice(buffer.format(index).as_bytes())?;
    text.push(b']')?;
    Ok(Text::from_vec(text))
}

pub(crate) fn no_name(alloc: Global) -> Text
    ensures { result ≡ [] }
{
    Text::from_vec(Vec::new(alloc))
}

/// The name of the word so many places from the left bound, or no name where there is none.
fn place_name(alloc: Global, memory: &Text, range: (i64, i64), place: u32) -> Result<Text, Memory>
    ensures { IfOk result (λ made. made ≡ slice_index_or (cells_of memory.now (Some range)) place []) }
{
    if u128::from(place) <= distance(range) {
        word_name(alloc, memory, index_at(range, place))
    } else {
        Ok(no_name(alloc))
    }
}

/// The name of a cell by its place in the declaration, or no name where there is none.
#[tactic(auto, using(crate::proofs::Words::other_place))]
pub(crate) fn cell_name(alloc: Global, name: &NetName, place: u32) -> Result<Text, Memory>
    ensures { IfOk result (λ made. made ≡ slice_index_or (cells_of name.now.text name.now.words) place []) }
{
    match name.words {
        Some(range) => place_name(alloc, &name.text, range, place),
        None => {
            if place == 0 {
                name.text.copied(alloc)
            } else {
                Ok(no_name(alloc))
            }
        }
    }
}
