//! Memories of the net whose words stand in cells, and copies of them.

ghost use Rattle.std.specs.Prelude.{◌≡◌, ◌+◌, ◌≤◌, true, length, IfOk, IfSome};
ghost use Rattle.wn_net.specs.Net.{AreNodes};
ghost use Rattle.wn_mem.specs.Words.{AreWordsOf};
ghost use Rattle.vl_lower_assign.specs.Slots.{AreCells};
ghost use Rattle.vl_lower_assign.specs.Tracks.{AreTracks, LeadTo};

use crate::track::Track;
use fv_text::{List, Memory};
use std::alloc::Global;
use wn_mem::memory_of;
use wn_net::{Net, NodeId};

/// Whether nodes are all words of the memory with a number, as they stand in the cycle.
fn is_memory(net: &Net, words: &[NodeId], number: u32) -> bool
    requires { AreNodes net.now words.now }
    ensures some { result ≡ true → 1 ≤ length words.now }
    ensures of { result ≡ true → AreWordsOf net.now words.now number }
{
    if words.len() == 0 {
        return false;
    }
    match memory_of(net, words) {
        Some(memory) => memory == number,
        None => false,
    }
}

/// The memory with a number over so many cells from the first on: nothing is written yet, where they are its words.
fn track_of(
    alloc: Global,
    net: &Net,
    cells: &[NodeId],
    number: u32,
    first: usize,
    count: usize,
) -> Track
    requires within { first + count ≤ length cells.now }
    requires cells { AreCells net.now cells.now }
    ensures first { result.first ≡ first }
    ensures count { result.count ≡ count }
    ensures leads { IfSome result.writes (LeadTo net.now cells.now number first count) }
{
    if is_memory(net, &cells[first..first + count], number) {
        return Track {
            first,
            count,
            writes: Some(List::new(alloc)),
        };
    }
    Track {
        first,
        count,
        writes: None,
    }
}

/// The memories of the net over cells, of each the first one: as many of them as stand one behind the other, each with
/// a cell for each word. Nothing is written yet of those whose words the cells are.
pub fn tracks_over(
    alloc: Global,
    net: &Net,
    cells: &[NodeId],
    firsts: &[u32],
) -> Result<Vec<Track>, Memory>
    requires { AreCells net.now cells.now }
    ensures { IfOk result (λ tracks. AreTracks net.now cells.now tracks.items) }
{
    let mut tracks = Vec::new(alloc);
    let mut end = 0;
    for number in 0..firsts.len() {
        let first = firsts[number] as usize;
        if first < end || number >= net.mems().len() {
            return Ok(tracks);
        }
        let count = net.mems()[number].words as usize;
        if first + count > cells.len() {
            return Ok(tracks);
        }
        tracks.push(track_of(alloc, net, cells, number as u32, first, count))?;
        end = first + count;
    }
    Ok(tracks)
}

fn copy_of(alloc: Global, track: &Track) -> Result<Track, Memory>
    ensures { IfOk result (λ copy. copy ≡ track.now) }
{
    let writes = match &track.writes {
        Some(writes) => {
            let writes = Vec::from_slice(alloc, writes.as_slice())?;
            Some(List::from_vec(writes))
        }
        None => None,
    };
    Ok(Track {
        first: track.first,
        count: track.count,
        writes,
    })
}

/// Equal ones, which share nothing with these.
pub fn copy_tracks(alloc: Global, tracks: &[Track]) -> Result<Vec<Track>, Memory>
    ensures { IfOk result (λ copies. copies.items ≡ tracks.now) }
{
    let mut copies = Vec::new(alloc);
    for track in tracks {
        copies.push(copy_of(alloc, track)?)?;
    }
    Ok(copies)
}
