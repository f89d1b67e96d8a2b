ghost use Rattle.std.specs.Prelude.{
  ◌≡◌,
  ◌≤◌,
  ◌+◌,
  ◌-◌,
  ◌^◌,
  ◌++◌,
  ◌↔◌,
  ℕ,
  [],
  min,
  max,
  length,
  if◌then◌else◌,
  Some,
};
ghost use Rattle.std.specs.Prelude.{is_ok, IsOk, IsTrue, OnOk, OnErr, IsErrOf};
ghost use Rattle.fv_base.specs.Outside.{Rose, Appends, AppendsPart, UnlessNotPut};
ghost use Rattle.fv_base.specs.Events.{put_events};
ghost use Rattle.fv_base.specs.Failing.{is_failing};

use crate::calls::Calls;
use crate::event::Happening;
use crate::journal::Journal;
use crate::out::{Out, OutFault};
use fv_text::Memory;
use std::alloc::Global;
use std::marker::Model;

/// Output in memory whose calls of put are numbered from 0, and fail where their number is in a list.
#[derive(Drop)]
pub struct MemOut {
    sent: Vec<u8>,
    calls: Calls,
    spare: u64,
    taken: Journal,
}

impl Model for MemOut {
    ghost use Rattle.std.specs.Prelude.{◌+◌, ◌≤◌, vec_len, vec_capacity};
    ghost use Rattle.fv_base.specs.Sent.{MemOutState};

    ghost Value = { MemOutState };

    ghost view = { λ o. record {
      sent = o.sent.items;
      failing = o.calls.failing.items;
      call = o.calls.next;
      faults = o.calls.faults;
      spare = o.spare;
      taken = o.taken;
    } };

    ghost invariant = { λ o. vec_len o.sent + o.spare ≤ vec_capacity o.sent };
}

impl MemOut {
    /// `failing` has the numbers of the calls that fail.
    pub fn new(alloc: Global, failing: Vec<u64>) -> MemOut
        ensures sent { result.sent ≡ [] }
        ensures failing { result.failing ≡ failing.items }
        ensures call { result.call ≡ 0 }
        ensures faults { result.faults ≡ 0 }
        ensures spare { result.spare ≡ 0 }
        ensures taken { result.taken ≡ [] }
    {
        MemOut {
            sent: Vec::new(alloc),
            calls: Calls::new(failing),
            spare: 0,
            taken: Journal::new(),
        }
    }

    /// The bytes put so far.
    pub fn sent(&self) -> &[u8]
        ensures { result.now ≡ self.now.sent }
    {
        self.sent.as_slice()
    }

    /// Makes room for so many bytes, so that puts of at most as many don't ask for memory.
    pub fn reserve(&mut self, extra: u64) -> Result<(), Memory>
        ensures ok { OnOk result (self.new.spare ≡ max self.old.spare extra) }
        ensures err { OnErr result (self.new.spare ≡ self.old.spare) }
        ensures sent { self.new.sent ≡ self.old.sent }
        ensures failing { self.new.failing ≡ self.old.failing }
        ensures call { self.new.call ≡ self.old.call }
        ensures faults { self.new.faults ≡ self.old.faults }
        ensures taken { self.new.taken ≡ self.old.taken }
    {
        self.sent.reserve(extra as usize)?;
        self.spare = self.spare.max(extra);
        Ok(())
    }

    /// Appends the bytes, from the spare room where they fit there.
    fn append(&mut self, bytes: &[u8]) -> Result<(), Memory>
        ensures sent { self.new.sent ≡ (if is_ok result then self.old.sent ++ bytes.now else self.old.sent) }
        ensures succeeds { length bytes.now ≤ self.old.spare → IsOk result }
        ensures spare { self.new.spare ≡ (if is_ok result then self.old.spare - length bytes.now
            else self.old.spare) }
        ensures failing { self.new.failing ≡ self.old.failing }
        ensures call { self.new.call ≡ self.old.call }
        ensures faults { self.new.faults ≡ self.old.faults }
        ensures taken { self.new.taken ≡ self.old.taken }
    {
        self.sent.extend_from_slice(bytes)?;
        self.spare = self.spare.saturating_sub(bytes.len() as u64);
        Ok(())
    }
}

impl Out for MemOut {
    ghost use Rattle.std.specs.Prelude.{Some};

    ghost state = { λ o. record { sent = Some o.sent; faults = o.faults; taken = o.taken } };

    fn put(&mut self, bytes: &[u8]) -> Result<(), OutFault>
        ensures ok { OnOk result (Appends (Some self.old.sent) (Some self.new.sent) bytes.now) }
        ensures failed { IsErrOf result OutFault.Failed → Rose self.old.faults self.new.faults }
        ensures part { IsErrOf result OutFault.Failed
            → AppendsPart (Some self.old.sent) (Some self.new.sent) bytes.now }
        ensures memory { IsErrOf result OutFault.Memory → Some self.new.sent ≡ Some self.old.sent }
        ensures quiet { UnlessNotPut result (self.new.faults ≡ self.old.faults) }
        ensures grow { self.old.faults ≤ self.new.faults }
        ensures taken { self.new.taken ≡ self.old.taken ++ put_events bytes.now result }

        // The numbered call fails and appends nothing, and no other call fails.
        ensures fails { IsErrOf result OutFault.Failed ↔ IsTrue (is_failing self.old.failing self.old.call) }
        ensures nothing { IsErrOf result OutFault.Failed → self.new.sent ≡ self.old.sent }
        ensures counted { self.new.call ≡ min (self.old.call + 1) (2 ^ 64 - 1) }
        ensures list_kept { self.new.failing ≡ self.old.failing }

        // Where there is room for the bytes no memory is asked for.
        ensures spared { length bytes.now ≤ self.old.spare → IsErrOf result OutFault.Memory → ⊥ }
        ensures spare { OnOk result (self.new.spare ≡ self.old.spare - length bytes.now) }
        ensures spare_kept { OnErr result (self.new.spare ≡ self.old.spare) }
    {
        if self.calls.begin_to_fail() {
            return Err(OutFault::Failed);
        }
        match self.append(bytes) {
            Ok(()) => {
                self.taken.note(Happening::Put(bytes));
                Ok(())
            }
            Err(Memory) => Err(OutFault::Memory),
        }
    }
}
