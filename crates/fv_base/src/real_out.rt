ghost use Rattle.std.specs.Prelude.{◌≡◌, [], None};

use crate::event::Happening;
use crate::journal::Journal;
use crate::out::{Out, OutFault};

/// Standard output. What it holds isn't told; each fault is counted, and what was put is noted. A write that takes
/// nothing is a fault.
#[derive(Drop)]
pub struct RealOut<'a, R: Print> {
    rt: &'a R,
    faults: u64,
    taken: Journal,
}

impl<'a, R: Print> RealOut<'a, R> {
    pub fn new(rt: &'a R) -> RealOut<'a, R>
        ensures faults { result.faults ≡ 0 }
        ensures taken { result.taken ≡ [] }
    {
        RealOut {
            rt,
            faults: 0,
            taken: Journal::new(),
        }
    }
}

impl<'a, R: Print> Out for RealOut<'a, R> {
    ghost state = { λ o. record { sent = None; faults = o.faults; taken = o.taken } };

    fn put(&mut self, bytes: &[u8]) -> Result<(), OutFault> {
        match self.rt.write_all(bytes) {
            Ok(()) => {
                self.taken.note(Happening::Put(bytes));
                Ok(())
            }
            Err(_) => {
                self.faults = self.faults.saturating_add(1);
                Err(OutFault::Failed)
            }
        }
    }
}
