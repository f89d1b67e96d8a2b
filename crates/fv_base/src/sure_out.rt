ghost use Rattle.std.specs.Prelude.{◌≡◌, []};

use crate::event::Happening;
use crate::journal::Journal;
use crate::out::{Out, OutFault};
use std::alloc::Global;
use std::marker::Model;

/// Output in memory whose calls never fail.
#[derive(Drop)]
pub struct SureOut {
    sent: Vec<u8>,
    taken: Journal,
}

impl Model for SureOut {
    ghost use Rattle.fv_base.specs.Sent.{Sent};

    ghost Value = { Sent };

    ghost view = { λ o. record { sent = o.sent.items; taken = o.taken } };
}

impl SureOut {
    pub fn new(alloc: Global) -> SureOut
        ensures sent { result.sent ≡ [] }
        ensures taken { result.taken ≡ [] }
    {
        SureOut {
            sent: Vec::new(alloc),
            taken: Journal::new(),
        }
    }

    /// The bytes put so far.
    pub fn sent(&self) -> &[u8]
        ensures { result.now ≡ self.now.sent }
    {
        self.sent.as_slice()
    }
}

impl Out for SureOut {
    ghost use Rattle.std.specs.Prelude.{Some};

    ghost state = { λ o. record { sent = Some o.sent; faults = 0; taken = o.taken } };

    fn put(&mut self, bytes: &[u8]) -> Result<(), OutFault> {
        match self.sent.extend_from_slice(bytes) {
            Ok(()) => {
                self.taken.note(Happening::Put(bytes));
                Ok(())
            }
            Err(_) => Err(OutFault::Memory),
        }
    }
}
