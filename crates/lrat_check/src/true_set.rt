ghost use Rattle.std.specs.Prelude.{◌≡◌, [], ◌∷◌, ◌++◌, OnOk};
ghost use Rattle.lrat_check.specs.Codes.{lit_of};
ghost use Rattle.lrat_check.specs.Sets.{has, is_false, IsLit};

use crate::code::flip;
use crate::marks::Marks;
use fv_text::Memory;
use std::alloc::Global;
use std::marker::Model;

/// A set of true literals, in the order in which they were added.
#[derive(Drop)]
pub(crate) struct TrueSet {
    lits: Vec<i64>,
    /// Which literals are there.
    marks: Marks,
}

impl Model for TrueSet {
    ghost use Rattle.std.specs.Prelude.{List, ℤ};
    ghost use Rattle.lrat_check.specs.Marks.{AreMarked};

    ghost Value = { List ℤ };

    ghost view = { λ s. s.lits.items };

    ghost invariant = { λ s. AreMarked s.marks s.lits.items };
}

impl TrueSet {
    pub(crate) fn new(alloc: Global) -> TrueSet
        ensures { result ≡ [] }
    {
        TrueSet {
            lits: Vec::new(alloc),
            marks: Marks::new(alloc),
        }
    }

    /// Whether the literal with the code is true.
    pub(crate) fn has(&self, code: u64) -> bool
        requires { IsLit (lit_of code) }
        ensures { result ≡ has self.now (lit_of code) }
    {
        self.marks.get(code)
    }

    /// Whether the literal with the code is false.
    pub(crate) fn is_false(&self, code: u64) -> bool
        requires { IsLit (lit_of code) }
        ensures { result ≡ is_false self.now (lit_of code) }
    {
        self.marks.get(flip(code))
    }

    pub(crate) fn add(&mut self, lit: i64) -> Result<(), Memory>
        requires { IsLit lit }
        ensures { OnOk result (self.new ≡ self.old ++ lit ∷ []) }
    {
        self.lits.push(lit)?;
        if self.marks.put(&lit).is_err() {
            self.lits.pop();
            return Err(Memory);
        }
        Ok(())
    }

    /// Forgets all, in time linear in how many were added.
    pub(crate) fn clear(&mut self)
        ensures { self.new ≡ [] }
    {
        while let Some(lit) = self.lits.pop() {
            self.marks.clear(&lit);
        }
    }
}
