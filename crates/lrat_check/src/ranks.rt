use crate::room::make_room;
use fv_text::Memory;
use std::alloc::Global;

/// Where ids are among each other, told by one look. What it tells is only a guess: it is looked at before it counts.
#[derive(Drop)]
pub(crate) struct Ranks {
    first: u64,
    /// One for each 64 numbers from the first id on.
    words: Vec<Ranked>,
}

/// Which of 64 numbers are ids, and how many ids are below all of them.
#[derive(Debug, Clone, Copy)]
struct Ranked {
    bits: u64,
    before: u32,
}

impl Ranks {
    pub(crate) fn new(alloc: Global) -> Ranks {
        Ranks {
            first: 0,
            words: Vec::new(alloc),
        }
    }

    /// An id comes behind so many. It isn't noted where fewer than one number in sixteen is an id, or for want of
    /// memory.
    pub(crate) fn note(&mut self, id: u64, before: usize) {
        if self.words.is_empty() {
            self.first = id;
        }
        let past = id.saturating_sub(self.first);
        if past / 64 <= before as u64 / 4 {
            if let Ok(before) = u32::try_from(before) {
                let _ = self.put(past, before);
            }
        }
    }

    fn put(&mut self, past: u64, before: u32) -> Result<(), Memory> {
        let word = (past / 64) as usize;
        let many = self.words.len();
        if word >= many {
            let more = word - many + 1;
            make_room(&mut self.words, more)?;
            self.words.resize(word + 1, Ranked { bits: 0, before })?;
        }
        if let Some(ranked) = self.words.get_mut(word) {
            ranked.bits |= 1 << (past % 64);
        }
        Ok(())
    }

    /// How many ids are below this one, if it is among the numbers.
    pub(crate) fn before(&self, id: u64) -> Option<usize> {
        let past = id.checked_sub(self.first)?;
        let ranked = self.words.get((past / 64) as usize)?;
        let below = ranked.bits & (1u64 << (past % 64)).wrapping_sub(1);
        Some(ranked.before as usize + below.count_ones() as usize)
    }
}
