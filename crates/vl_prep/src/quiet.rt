//! Uses of macros that need not be read again.

ghost use Rattle.std.specs.Prelude.{◌≡◌, ℕ, ◌==◌, true, false, Some, slice_get, OnOk, OnErr};
ghost use Rattle.std.specs.Bool.{OnTrue};
ghost use Rattle.vl_prep.specs.Quiet.{IsSeen, IsEmpty, KeepsPlace, NotesOne, WasSeen};

use fv_text::{Memory, Pos, Text};
use indexmap::IndexMap;
use std::alloc::Global;

/// How many uses can still stand within one another: 0 to 32.
const LEVELS: usize = 33;

/// The macros of which a use at one place was seen to change nothing, each with how many uses could still stand within
/// one another there. So macros that use one another many times, and put nothing out, are read in the time that their
/// texts take once at each of these levels.
#[derive(Drop)]
pub(crate) struct Quiet {
    place: Option<Pos>,
    levels: IndexMap<Vec<u8>, [bool; LEVELS]>,
}

impl Quiet {
    pub(crate) fn new(alloc: Global) -> Quiet
        ensures { IsEmpty result }
    {
        Quiet {
            place: None,
            levels: IndexMap::new(alloc),
        }
    }

    /// Whether such a use was seen.
    pub(crate) fn has(&self, name: &[u8], place: Pos, levels: u32) -> bool
        ensures { OnTrue result (IsSeen self.now name.now place levels) }
    {
        if self.place != Some(place) {
            return false;
        }
        match self.levels.get(name) {
            Some(seen) => seen.get(levels as usize) == Some(&true),
            None => false,
        }
    }

    /// Notes one more, and forgets those of another place.
    pub(crate) fn note(
        &mut self,
        alloc: Global,
        name: &Text,
        place: Pos,
        levels: u32,
    ) -> Result<(), Memory>
        ensures ok { OnOk result (NotesOne self.old name.now place levels self.new) }
        ensures err { OnErr result (KeepsPlace self.old place self.new) }
    {
        self.keep(alloc, place);
        let seen = with_level(self.seen(name), levels);
        let key = Vec::from_slice(alloc, name.bytes())?;
        self.levels.insert(key, seen)?;
        Ok(())
    }

    /// At which levels a use of the macro was seen.
    fn seen(&self, name: &Text) -> [bool; LEVELS]
        ensures { (n : ℕ) → slice_get result n ≡ Some true → WasSeen self.now name.now n }
    {
        match self.levels.get(name.bytes()) {
            Some(seen) => *seen,
            None => [false; LEVELS],
        }
    }

    /// Forgets those of another place.
    fn keep(&mut self, alloc: Global, place: Pos)
        ensures { KeepsPlace self.old place self.new }
    {
        if self.place != Some(place) {
            self.place = Some(place);
            self.levels = IndexMap::new(alloc);
        }
    }
}

/// One more level.
fn with_level(seen: [bool; LEVELS], level: u32) -> [bool; LEVELS]
    ensures { (n : ℕ) → (level == n) ≡ false → slice_get result n ≡ Some true
        → slice_get seen n ≡ Some true }
{
    let mut seen = seen;
    if (level as usize) < LEVELS {
        seen[level as usize] = true;
    }
    seen
}
