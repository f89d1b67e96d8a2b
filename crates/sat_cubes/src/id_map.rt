ghost use Rattle.std.specs.Prelude.{◌≡◌, ◌<◌, length, IfOk, OnOk};
ghost use Rattle.sat_cubes.specs.Lifting.{listed, first_ids, with_id};

use fv_text::Memory;
use std::alloc::Global;
use std::marker::Model;

/// The id in a formula's steps of each clause of restricted ones.
#[derive(Drop)]
pub(crate) struct IdMap {
    ids: Vec<Option<u64>>,
}

impl Model for IdMap {
    ghost use Rattle.std.specs.Prelude.{List, Option, ℕ};

    ghost Value = { List (Option ℕ) };

    ghost view = { λ m. m.ids.items };
}

impl IdMap {
    /// The restricted formula's clauses have the ids from 1 on.
    pub(crate) fn new(alloc: Global, ids: &[u64]) -> Result<IdMap, Memory>
        ensures { IfOk result (λ map. listed map ≡ first_ids ids.now) }
    {
        let mut all = Vec::with_capacity(alloc, ids.len())?;
        all.push(None)?;
        for id in ids {
            all.push(Some(*id))?;
        }
        Ok(IdMap { ids: all })
    }

    pub(crate) fn get(&self, id: u64) -> Option<u64>
        ensures { result ≡ listed self.now id }
    {
        match self.ids.get(id as usize) {
            Some(to) => *to,
            None => None,
        }
    }

    pub(crate) fn put(&mut self, id: u64, to: u64) -> Result<(), Memory>
        ensures { OnOk result (listed self.new ≡ with_id (listed self.old) id to) }
    {
        let place = id as usize;
        widen(&mut self.ids, place)?;
        self.ids[place] = Some(to);
        Ok(())
    }
}

/// Fills up with None until there is one for the place.
fn widen(ids: &mut Vec<Option<u64>>, place: usize) -> Result<(), Memory>
    ensures within { OnOk result (place < length ids.new.items) }
    ensures same { OnOk result (listed ids.new.items ≡ listed ids.old.items) }
{
    while ids.len() <= place {
        ids.push(None)?;
    }
    Ok(())
}
