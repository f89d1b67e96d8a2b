ghost use Rattle.std.specs.Prelude.{◌≡◌, ◌<◌, [], length, OnOk};
ghost use Rattle.sat_propagate.specs.Watching.{with_watch, taken, joined, lists_of, items_of};

use crate::watch::Watch;
use fv_text::Memory;
use std::alloc::Global;
use std::marker::Model;

/// The watches of each literal, by its code.
#[derive(Drop)]
pub(crate) struct Lists {
    alloc: Global,
    lists: Vec<Vec<Watch>>,
}

impl Model for Lists {
    ghost use Rattle.std.specs.Prelude.{List};
    ghost use Rattle.sat_propagate.specs.declared.watch.Watch.{Watch};
    ghost use Rattle.sat_propagate.specs.Watching.{items_of};

    ghost Value = { List (List Watch) };

    ghost view = { λ l. items_of l.lists.items };
}

impl Lists {
    pub(crate) fn new(alloc: Global) -> Lists
        ensures { result ≡ [] }
    {
        Lists {
            alloc,
            lists: Vec::new(alloc),
        }
    }

    pub(crate) fn push(&mut self, code: u64, watch: Watch) -> Result<(), Memory>
        ensures { OnOk result (lists_of self.new ≡ with_watch (lists_of self.old) code watch) }
    {
        let place = code as usize;
        widen(self.alloc, &mut self.lists, place)?;
        self.lists[place].push(watch)?;
        Ok(())
    }

    /// Takes the literal's list out, in exchange for one that is empty.
    pub(crate) fn take(&mut self, code: u64, spare: &mut Vec<Watch>)
        requires { spare.old.items ≡ [] }
        ensures list { spare.new.items ≡ lists_of self.old code }
        ensures rest { lists_of self.new ≡ taken (lists_of self.old) code }
    {
        let place = code as usize;
        if place < self.lists.len() {
            std::mem::swap(&mut self.lists[place], spare);
        }
    }

    /// Watches that were taken out go back, in front of those that came into the literal's list since, and with them
    /// the memory that the list had before.
    pub(crate) fn put_back(&mut self, code: u64, watches: &mut Vec<Watch>) -> Result<(), Memory>
        ensures lists { OnOk result (lists_of self.new ≡ joined (lists_of self.old) code watches.old.items) }
        ensures none { OnOk result (watches.new.items ≡ []) }
    {
        let place = code as usize;
        widen(self.alloc, &mut self.lists, place)?;
        watches.extend_from_slice(self.lists[place].as_slice())?;
        std::mem::swap(&mut self.lists[place], watches);
        watches.clear();
        Ok(())
    }
}

/// Fills up with empty lists until there is one at the place.
fn widen(alloc: Global, lists: &mut Vec<Vec<Watch>>, place: usize) -> Result<(), Memory>
    ensures within { OnOk result (place < length lists.new.items) }
    ensures same { OnOk result (lists_of (items_of lists.new.items) ≡ lists_of (items_of lists.old.items)) }
{
    'grow: while lists.len() <= place {
        lists.push(Vec::new(alloc))?;
    }
    Ok(())
}
