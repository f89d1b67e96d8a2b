//! Numbered calls of which some are to fail, for the implementations in memory.

ghost use Rattle.std.specs.Prelude.{
  ◌≡◌,
  ◌≤◌,
  ◌+◌,
  ◌-◌,
  ◌^◌,
  ◌↔◌,
  min,
  if◌then◌else◌,
  IsTrue,
  false,
  [],
  ◌∷◌,
};
ghost use Rattle.fv_base.specs.Outside.{Rose};
ghost use Rattle.fv_base.specs.Failing.{is_failing};

/// The calls so far. Numbers begin at 0, and both counts stand still at `2 ^ 64 - 1`.
#[derive(Drop)]
pub(crate) struct Calls {
    /// The numbers of the calls that fail.
    pub(crate) failing: Vec<u64>,
    /// The number of the next call.
    pub(crate) next: u64,
    pub(crate) faults: u64,
}

impl Calls {
    pub(crate) fn new(failing: Vec<u64>) -> Calls
        ensures failing { result.failing.items ≡ failing.items }
        ensures next { result.next ≡ 0 }
        ensures faults { result.faults ≡ 0 }
    {
        Calls {
            failing,
            next: 0,
            faults: 0,
        }
    }

    /// Counts a call, and says whether it is to fail.
    pub(crate) fn begin_to_fail(&mut self) -> bool
        ensures fails { result ≡ is_failing self.old.failing.items self.old.next }
        ensures next { self.new.next ≡ min (self.old.next + 1) (2 ^ 64 - 1) }
        ensures rose { IsTrue result → Rose self.old.faults self.new.faults }
        ensures quiet { result ≡ false → self.new.faults ≡ self.old.faults }
        ensures grow { self.old.faults ≤ self.new.faults }
        ensures failing { self.new.failing.items ≡ self.old.failing.items }
    {
        let fails = self.failing.contains(&self.next);
        self.next = self.next.saturating_add(1);
        if fails {
            self.faults = self.faults.saturating_add(1);
        }
        fails
    }
}
