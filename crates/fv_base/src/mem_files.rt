ghost use Rattle.std.specs.Prelude.{
  ◌≡◌,
  ◌≤◌,
  ◌+◌,
  ◌-◌,
  ◌^◌,
  ◌↔◌,
  ℕ,
  min,
  if◌then◌else◌,
  ◌++◌,
  [],
  Some,
  None,
  IsTrue,
};
ghost use Rattle.std.specs.Prelude.{MatchOption, IfOk, OnOk, IsErrOf};
ghost use Rattle.fv_base.specs.Outside.{Rose, ReadGives, Lacks, Holds, HoldsPart, SameFiles, UnlessFailed};
ghost use Rattle.fv_base.specs.Events.{read_events, write_events};
ghost use Rattle.fv_base.specs.Failing.{is_failing};
ghost use Rattle.fv_base.specs.Store.{no_files, with_pairs};

use crate::calls::Calls;
use crate::event::Happening;
use crate::files::{FileFault, Files};
use crate::journal::Journal;
use crate::store::{self, Store};
use fv_text::Memory;
use std::alloc::Global;

/// Files in memory whose calls of read and write are numbered from 0, and fail where their number is in a list.
#[derive(Drop)]
pub struct MemFiles {
    store: Store,
    calls: Calls,
    misses: u64,
    heard: Journal,
    written: Journal,
}

impl MemFiles {
    ghost use Rattle.fv_base.specs.Kept.{mem_state};

    /// Of several pairs with one name the last counts. `failing` has the numbers of the calls that fail.
    pub fn new(
        alloc: Global,
        files: Vec<(String, Vec<u8>)>,
        failing: Vec<u64>,
    ) -> Result<MemFiles, Memory>
        ensures names { IfOk result (λ f. SameFiles (Some (with_pairs no_files files.items))
            (Some (mem_state f).names)) }
        ensures failing { IfOk result (λ f. (mem_state f).failing ≡ failing.items) }
        ensures call { IfOk result (λ f. (mem_state f).call ≡ 0) }
        ensures faults { IfOk result (λ f. (mem_state f).faults ≡ 0) }
        ensures misses { IfOk result (λ f. (mem_state f).misses ≡ 0) }
        ensures heard { IfOk result (λ f. (mem_state f).heard ≡ []) }
        ensures written { IfOk result (λ f. (mem_state f).written ≡ []) }
    {
        Ok(MemFiles {
            store: store::from_pairs(alloc, files.as_slice())?,
            calls: Calls::new(failing),
            misses: 0,
            heard: Journal::new(),
            written: Journal::new(),
        })
    }

    /// What the name holds. None exactly where it isn't held.
    pub fn get(&self, name: &str) -> Option<&[u8]>
        ensures { MatchOption result ((mem_state self.now).names name.now ≡ None)
            (λ bytes. (mem_state self.now).names name.now ≡ Some bytes.now) }
    {
        store::look_up(&self.store, name.as_bytes())
    }
}

impl Files for MemFiles {
    ghost use Rattle.std.specs.Prelude.{Some};
    ghost use Rattle.fv_base.specs.Kept.{mem_state};

    ghost state = { λ s. record {
      held = Some (mem_state s).names;
      faults = (mem_state s).faults;
      misses = (mem_state s).misses;
      heard = (mem_state s).heard;
      written = (mem_state s).written;
    } };

    fn read(&mut self, alloc: Global, name: &[u8]) -> Result<Vec<u8>, FileFault>
        ensures bytes { IfOk result (λ bytes. ReadGives (Some (mem_state self.old).names) name.now bytes.items) }
        ensures absent { IsErrOf result FileFault.Absent → Lacks (Some (mem_state self.old).names) name.now }
        ensures missed { IsErrOf result FileFault.Absent
            → Rose (mem_state self.old).misses (mem_state self.new).misses }
        ensures failed { IsErrOf result FileFault.Failed
            → Rose (mem_state self.old).faults (mem_state self.new).faults }
        ensures quiet { UnlessFailed result ((mem_state self.new).faults ≡ (mem_state self.old).faults) }
        ensures kept { SameFiles (Some (mem_state self.old).names) (Some (mem_state self.new).names) }
        ensures faults_grow { (mem_state self.old).faults ≤ (mem_state self.new).faults }
        ensures misses_grow { (mem_state self.old).misses ≤ (mem_state self.new).misses }
        ensures heard { (mem_state self.new).heard ≡ (mem_state self.old).heard ++ read_events name.now result }
        ensures unwritten { (mem_state self.new).written ≡ (mem_state self.old).written }

        // The numbered call fails, whether or not the name is held, and no other call does.
        ensures fails { IsErrOf result FileFault.Failed
            ↔ IsTrue (is_failing (mem_state self.old).failing (mem_state self.old).call) }
        ensures counted { (mem_state self.new).call ≡ min ((mem_state self.old).call + 1) (2 ^ 64 - 1) }
        ensures list_kept { (mem_state self.new).failing ≡ (mem_state self.old).failing }
    {
        if self.calls.begin_to_fail() {
            self.heard.note(Happening::Failed(name));
            return Err(FileFault::Failed);
        }
        let Some(bytes) = store::look_up(&self.store, name) else {
            self.misses = self.misses.saturating_add(1);
            self.heard.note(Happening::Lacked(name));
            return Err(FileFault::Absent);
        };
        match Vec::from_slice(alloc, bytes) {
            Ok(copy) => {
                self.heard.note(Happening::Gave(name, copy.as_slice()));
                Ok(copy)
            }
            Err(_) => Err(FileFault::Memory),
        }
    }

    fn write(&mut self, alloc: Global, name: &[u8], bytes: &[u8]) -> Result<(), FileFault>
        ensures ok { OnOk result (Holds (Some (mem_state self.old).names)
            (Some (mem_state self.new).names) name.now bytes.now) }
        ensures failed { IsErrOf result FileFault.Failed
            → Rose (mem_state self.old).faults (mem_state self.new).faults }
        ensures part { IsErrOf result FileFault.Failed
            → HoldsPart (Some (mem_state self.old).names) (Some (mem_state self.new).names) name.now bytes.now }
        ensures memory { IsErrOf result FileFault.Memory
            → SameFiles (Some (mem_state self.old).names) (Some (mem_state self.new).names) }
        ensures never_absent { IsErrOf result FileFault.Absent → ⊥ }
        ensures quiet { UnlessFailed result ((mem_state self.new).faults ≡ (mem_state self.old).faults) }
        ensures faults_grow { (mem_state self.old).faults ≤ (mem_state self.new).faults }
        ensures misses_kept { (mem_state self.new).misses ≡ (mem_state self.old).misses }
        ensures unheard { (mem_state self.new).heard ≡ (mem_state self.old).heard }
        ensures written { (mem_state self.new).written
            ≡ (mem_state self.old).written ++ write_events name.now bytes.now result }

        // The numbered call fails and changes no file, and no other call fails.
        ensures fails { IsErrOf result FileFault.Failed
            ↔ IsTrue (is_failing (mem_state self.old).failing (mem_state self.old).call) }
        ensures unchanged { IsErrOf result FileFault.Failed
            → SameFiles (Some (mem_state self.old).names) (Some (mem_state self.new).names) }
        ensures counted { (mem_state self.new).call ≡ min ((mem_state self.old).call + 1) (2 ^ 64 - 1) }
        ensures list_kept { (mem_state self.new).failing ≡ (mem_state self.old).failing }
    {
        let fails = self.calls.begin_to_fail();
        if fails {
            return Err(FileFault::Failed);
        }
        match store::put(alloc, &mut self.store, name, bytes) {
            Ok(()) => {
                self.written.note(Happening::Wrote(name, bytes));
                Ok(())
            }
            Err(Memory) => Err(FileFault::Memory),
        }
    }
}
