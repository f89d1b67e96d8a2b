//! Writes of memories of the net, kept beside the cells that their words stand in.

ghost use Rattle.std.specs.Prelude.{◌≡◌, ◌+◌, ◌^◌, ◌<◌, ◌≤◌, ℕ, None, IfSome, OnOk, length};
ghost use Rattle.vl_lower_assign.specs.Logs.{IsWithin};
ghost use Rattle.vl_lower_assign.specs.Slots.{AreAround, AreCells, IsWordIn};
ghost use Rattle.vl_lower_assign.specs.Tracks.{AreApart, AreTracks, FollowAll, FollowWrite, Gains, track_at};

use crate::slot::Holder;
use crate::track::{MemoryWord, Track, WordsWrite};
use fv_text::Memory;
use wn_net::{MemWrite, Net, NodeId};

/// How many of the memories begin in front of a cell.
fn begun_before(tracks: &[Track], end: usize) -> usize
    requires { AreApart tracks.now }
    ensures few { result ≤ length tracks.now }
    ensures begun { (i : ℕ) → i < result → (track_at tracks.now i).first < end }
    ensures later { (i : ℕ) → result ≤ i → i < length tracks.now → end ≤ (track_at tracks.now i).first }
{
    let mut low = 0;
    let mut high = tracks.len();
    while low < high {
        let middle = low + (high - low) / 2;
        if tracks[middle].first < end {
            low = middle + 1;
        } else {
            high = middle;
        }
    }
    low
}

/// The memory of which so many cells from the first on are all words.
fn words_from(tracks: &[Track], first: usize, count: usize) -> Option<usize>
    requires apart { AreApart tracks.now }
    requires end { first + count < 2 ^ 64 }
    ensures { IfSome result (λ i. (i < length tracks.now) × ((track_at tracks.now i).first ≡ first)
        × ((track_at tracks.now i).count ≡ count)) }
{
    let at = begun_before(tracks, first + count).checked_sub(1)?;
    let track = &tracks[at];
    if track.first == first && track.count == count {
        return Some(at);
    }
    None
}

/// The memory of which a cell is a word.
fn memory_of(tracks: &[Track], at: usize) -> Option<usize>
    requires apart { AreApart tracks.now }
    requires end { at + 1 < 2 ^ 64 }
    ensures { IfSome result (λ i. (i < length tracks.now) × ((track_at tracks.now i).first ≤ at)
        × (at < (track_at tracks.now i).first + (track_at tracks.now i).count)) }
{
    let last = begun_before(tracks, at + 1).checked_sub(1)?;
    let track = &tracks[last];
    if at - track.first < track.count {
        return Some(last);
    }
    None
}

/// The word that a cell is, where the writes of its memory are known and the words have the width; one at an address of
/// more than 32 bits isn't told.
pub(crate) fn word_of(
    net: &Net,
    tracks: &[Track],
    cells: &[NodeId],
    at: usize,
    width: u32,
) -> Option<MemoryWord>
    requires cells { AreCells net.now cells.now }
    requires tracks { AreTracks net.now cells.now tracks.now }
    requires at { at < length cells.now }
    ensures at { IfSome result (λ word. at ≡ word.first + word.address) }
    ensures word { IfSome result (IsWordIn net.now cells.now width) }
{
    let track = &tracks[memory_of(tracks, at)?];
    let first = track.first;
    if track.writes.is_none() || net.width(cells[first]) != width {
        return None;
    }
    let address = u32::try_from(at - first).ok()?;
    Some(MemoryWord {
        first,
        count: track.count,
        address,
    })
}

/// One more write behind those that are known.
fn add_write(track: &mut Track, write: MemWrite) -> Result<(), Memory>
    ensures { OnOk result (Gains write track.old track.new) }
{
    if let Some(writes) = &mut track.writes {
        writes.push(write)?;
    }
    Ok(())
}

/// Gives up the writes of a memory.
fn forget_one(track: &mut Track)
    ensures first { track.new.first ≡ track.old.first }
    ensures count { track.new.count ≡ track.old.count }
    ensures writes { track.new.writes ≡ None }
{
    track.writes = None;
}

/// Gives up the writes of all memories.
fn forget_all(tracks: &mut [Track])
    ensures many { length tracks.new ≡ length tracks.old }
    ensures first { (i : ℕ) → i < length tracks.old → (track_at tracks.new i).first ≡ (track_at tracks.old i).first }
    ensures count { (i : ℕ) → i < length tracks.old → (track_at tracks.new i).count ≡ (track_at tracks.old i).count }
    ensures writes { (i : ℕ) → i < length tracks.old → (track_at tracks.new i).writes ≡ None }
{
    for index in 0..tracks.len() {
        forget_one(&mut tracks[index]);
    }
}

/// Gives up the writes of the memories that have one of so many cells from the first on.
fn forget(tracks: &mut [Track], first: usize, count: usize)
    requires apart { AreApart tracks.old }
    requires end { first + count < 2 ^ 64 }
    ensures { FollowAll first count None tracks.old tracks.new }
{
    let Some(last) = begun_before(tracks, first + count).checked_sub(1) else {
        return;
    };
    let start = tracks[last].first;
    if start > first {
        // Cells that are written together are all of one memory of the net or of none, so it doesn't come to this.
        forget_all(tracks);
        return;
    }
    if first - start < tracks[last].count {
        forget_one(&mut tracks[last]);
        return;
    }
}

/// Keeps the write that was made where so many cells from the first on were written, if it is one to all words of a
/// memory.
fn keep_words(
    tracks: &mut [Track],
    first: usize,
    count: usize,
    made: Option<WordsWrite>,
) -> Result<(), Memory>
    requires apart { AreApart tracks.old }
    requires end { first + count < 2 ^ 64 }
    requires around { IfSome made (λ m. (m.first ≤ first) × (first + count ≤ m.first + m.count)
        × (m.first + m.count < 2 ^ 64)) }
    ensures { OnOk result (FollowAll first count made tracks.old tracks.new) }
{
    if let Some(made) = made {
        if let Some(at) = words_from(tracks, made.first, made.count) {
            return Ok(add_write(&mut tracks[at], made.write)?);
        }
    }
    forget(tracks, first, count);
    Ok(())
}

/// Keeps the write that was made to cells, so many of which there are: memories that have one of them, and another way
/// of writing it than by this write alone, lose their writes.
pub(crate) fn keep_write(
    tracks: &mut Vec<Track>,
    cells: usize,
    holder: Holder,
    made: Option<WordsWrite>,
) -> Result<(), Memory>
    requires apart { AreApart tracks.old.items }
    requires within { IsWithin cells holder }
    requires around { IfSome made (λ m. AreAround m.first m.count holder) }
    requires made { IfSome made (λ m. m.first + m.count ≤ cells) }
    ensures { OnOk result (FollowWrite holder made tracks.old.items tracks.new.items) }
{
    match holder {
        Holder::Cell(at) => Ok(keep_words(tracks.as_mut_slice(), at, 1, made)?),
        Holder::Word {
            first,
            count,
            address: _,
        } => Ok(keep_words(tracks.as_mut_slice(), first, count, made)?),
        Holder::Nowhere => Ok(()),
    }
}
