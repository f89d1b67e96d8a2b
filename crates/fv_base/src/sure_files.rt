ghost use Rattle.std.specs.Prelude.{◌≡◌, [], Some, None, MatchOption, IfOk};
ghost use Rattle.fv_base.specs.Outside.{SameFiles};
ghost use Rattle.fv_base.specs.Store.{no_files, with_pairs};

use crate::event::Happening;
use crate::files::{FileFault, Files};
use crate::journal::Journal;
use crate::store::{self, Store};
use fv_text::Memory;
use std::alloc::Global;

/// Files in memory whose calls never fail.
#[derive(Drop)]
pub struct SureFiles {
    store: Store,
    misses: u64,
    heard: Journal,
    written: Journal,
}

impl SureFiles {
    ghost use Rattle.fv_base.specs.Kept.{sure_names};

    /// Of several pairs with one name the last counts.
    pub fn new(alloc: Global, files: Vec<(String, Vec<u8>)>) -> Result<SureFiles, Memory>
        ensures names { IfOk result (λ f. SameFiles (Some (with_pairs no_files files.items)) (Some (sure_names f))) }
        ensures heard { IfOk result (λ f. f.heard ≡ []) }
        ensures written { IfOk result (λ f. f.written ≡ []) }
    {
        Ok(SureFiles {
            store: store::from_pairs(alloc, files.as_slice())?,
            misses: 0,
            heard: Journal::new(),
            written: Journal::new(),
        })
    }

    /// What the name holds. None exactly where it isn't held.
    pub fn get(&self, name: &str) -> Option<&[u8]>
        ensures { MatchOption result (sure_names self.now name.now ≡ None)
            (λ bytes. sure_names self.now name.now ≡ Some bytes.now) }
    {
        store::look_up(&self.store, name.as_bytes())
    }
}

impl Files for SureFiles {
    ghost use Rattle.fv_base.specs.Kept.{sure_names};

    ghost state = { λ s. record {
      held = Some (sure_names s);
      faults = 0;
      misses = s.misses;
      heard = s.heard;
      written = s.written;
    } };

    fn read(&mut self, alloc: Global, name: &[u8]) -> Result<Vec<u8>, FileFault> {
        let Some(bytes) = store::look_up(&self.store, name) else {
            self.misses = self.misses.saturating_add(1);
            self.heard.note(Happening::Lacked(name));
            return Err(FileFault::Absent);
        };
        match Vec::from_slice(alloc, bytes) {
            Ok(copy) => {
                self.heard.note(Happening::Gave(name, copy.as_slice()));
                Ok(copy)
            }
            Err(_) => Err(FileFault::Memory),
        }
    }

    fn write(&mut self, alloc: Global, name: &[u8], bytes: &[u8]) -> Result<(), FileFault> {
        match store::put(alloc, &mut self.store, name, bytes) {
            Ok(()) => {
                self.written.note(Happening::Wrote(name, bytes));
                Ok(())
            }
            Err(Memory) => Err(FileFault::Memory),
        }
    }
}
