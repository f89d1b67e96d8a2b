//! The names of a trace.

ghost use Rattle.std.specs.Prelude.{◌≡◌, ◌++◌, IfOk, OnOk};
ghost use Rattle.std.specs.List.{flat_map};
ghost use Rattle.wn_net.specs.Names.{words_in};
ghost use Rattle.tr_replay.specs.Traces as traces;

use fv_text::{List, Memory, Text, TraceName};
use itoa::Buffer;
use std::alloc::Global;
use wn_net::{Names, Net, NetName, Place};

/// The declared index of the word so many places from the left bound.
fn index_at(range: (i64, i64), place: u32) -> i128
    ensures { result ≡ traces.index_at range place }
{
    let left = i128::from(range.0);
    let place = i128::from(place);
    if range.0 <= range.1 {
        left + place
    } else {
        left - place
    }
}

/// The name of that word.
fn word_name(
    alloc: Global,
    name: &NetName,
    range: (i64, i64),
    place: u32,
) -> Result<TraceName, Memory>
    ensures { IfOk result (λ made. made ≡ traces.word_name name.now.text name.now.width range place) }
{
    let mut buffer = Buffer::new();
    let mut text = Vec::from_slice(alloc, name.text.bytes())?;
    text.push(b'[')?;
    text.extend_from_slice(buffer.format(index_at(range, place)).as_bytes())?;
    text.push(b']')?;
    Ok(TraceName {
        text: Text::from_vec(text),
        width: name.width,
    })
}

/// How many words the memory has, and 0 where there is none.
fn words_in(net: &Net, mem: u32) -> u32
    ensures { result ≡ words_in net.now mem }
{
    match net.mems().get(mem as usize) {
        Some(mem) => mem.words,
        None => 0,
    }
}

/// A name for each of so many words.
#[tactic(auto, using(crate::proofs::Each::word_names_step, crate::proofs::Each::word_names_end))]
fn put_words(
    alloc: Global,
    made: &mut List<TraceName>,
    name: &NetName,
    range: (i64, i64),
    count: u32,
) -> Result<(), Memory>
    ensures { OnOk result (made.new ≡ made.old
        ++ traces.word_names name.now.text name.now.width range 0 count) }
{
    for place in 0..count {
        let word = word_name(alloc, name, range, place)?;
        made.push(word)?;
    }
    Ok(())
}

/// The name itself, or those of a memory's words.
fn put_name(
    alloc: Global,
    made: &mut List<TraceName>,
    net: &Net,
    name: &NetName,
) -> Result<(), Memory>
    ensures { OnOk result (made.new ≡ made.old ++ traces.names_of net.now name.now) }
{
    let Place::Mem(mem) = name.place else {
        let text = name.text.copied(alloc)?;
        made.push(TraceName {
            text,
            width: name.width,
        })?;
        return Ok(());
    };
    match name.words {
        Some(range) => put_words(alloc, made, name, range, words_in(net, mem)),
        None => Ok(()),
    }
}

/// All names, in the order of their declarations.
#[tactic(auto, using(crate::proofs::Each::names_step, crate::proofs::Each::names_end))]
pub(crate) fn trace_names(
    alloc: Global,
    net: &Net,
    names: &[NetName],
) -> Result<List<TraceName>, Memory>
    ensures { IfOk result (λ made. made ≡ flat_map (traces.names_of net.now) names.now) }
{
    let mut made = List::new(alloc);
    for name in names {
        put_name(alloc, &mut made, net, name)?;
    }
    Ok(made)
}
