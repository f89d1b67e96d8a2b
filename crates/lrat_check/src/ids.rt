ghost use Rattle.std.specs.Prelude.{◌≡◌, ◌<◌, ◌^◌, ◌++◌, ◌∷◌, [], length, IfOk, OnOk, OnErr, MatchOption};
ghost use Rattle.lrat_check.specs.Store.{number_at, marked, Rising, NoId, IsId};

use crate::ranks::Ranks;
use crate::room::make_room;
use crate::sorted::search;
use fv_text::Memory;
use std::alloc::Global;
use std::marker::Model;

/// Ids in the order in which they were added. Those from 1 on are only counted, up to the first gap.
#[derive(Drop)]
pub(crate) struct Ids {
    counted: u64,
    /// Those behind the gap.
    others: Vec<u64>,
    /// Where the others are.
    ranks: Ranks,
}

impl Model for Ids {
    ghost use Rattle.std.specs.Prelude.{List, ℕ, ◌++◌};
    ghost use Rattle.std.specs.List.{range_with_len};

    ghost Value = { List ℕ };

    ghost view = { λ i. range_with_len 1 i.counted ++ i.others.items };
}

impl Ids {
    pub(crate) fn new(alloc: Global) -> Ids
        ensures { result ≡ [] }
    {
        Ids {
            counted: 0,
            others: Vec::new(alloc),
            ranks: Ranks::new(alloc),
        }
    }

    /// After want of memory all is as before.
    pub(crate) fn add(&mut self, id: u64) -> Result<(), Memory>
        ensures ok { OnOk result (self.new ≡ self.old ++ id ∷ []) }
        ensures err { OnErr result (self.new ≡ self.old) }
    {
        if self.others.is_empty() && id > 0 && id - 1 == self.counted {
            self.counted = id;
            return Ok(());
        }
        make_room(&mut self.others, 1)?;
        self.ranks.note(id, self.others.len());
        self.others.push_reserved(id);
        Ok(())
    }

    /// The place of the id.
    pub(crate) fn find(&self, id: u64) -> Option<usize>
        requires rising { Rising self.now }
        requires long { length self.now < 2 ^ 64 }
        ensures { MatchOption result (NoId self.now id) (λ k. IsId self.now id k) }
    {
        if id > 0 && id <= self.counted {
            return Some((id - 1) as usize);
        }
        let Some(behind) = search(&self.others, &self.ranks, id) else {
            return None;
        };
        Some(self.counted as usize + behind)
    }

    fn at(&self, place: usize) -> u64
        requires { place < length self.now }
        ensures { result ≡ number_at self.now place }
    {
        let place = place as u64;
        if place < self.counted {
            place + 1
        } else {
            self.others[(place - self.counted) as usize]
        }
    }

    /// Those whose marks are set.
    pub(crate) fn kept(&self, alloc: Global, marks: &[bool]) -> Result<Ids, Memory>
        requires { length marks.now ≡ length self.now }
        ensures { IfOk result (λ kept. kept ≡ marked self.now marks.now) }
    {
        let mut kept = Ids::new(alloc);
        for (place, mark) in marks.iter().enumerate() {
            if *mark {
                kept.add(self.at(place))?;
            }
        }
        Ok(kept)
    }
}
