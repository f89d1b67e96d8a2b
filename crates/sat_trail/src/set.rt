ghost use Rattle.std.specs.Prelude.{◌≡◌, ◌+◌, ◌<◌, ◌^◌, ◌&&◌, ◌||◌, List, ℤ, false, not, if◌then◌else◌, IfOk, OnOk};
ghost use Rattle.std.specs.Prelude.{IsTrue, ◌↔◌, []};
ghost use Rattle.lrat_check.specs.Sets.{same_set, AreLits};
ghost use Rattle.sat_trail.specs.Known as spec;
ghost use Rattle.sat_trail.specs.Sorted.{sorted};

use fv_text::Memory;
use std::alloc::Global;
use std::collections::{BTreeSet, HashSet};
use std::marker::Model;

/// Clauses, seen as a test. Those with the same literals are one.
#[derive(Drop)]
pub struct ClauseSet {
    alloc: Global,
    sets: HashSet<BTreeSet<i64>>,
}

impl Model for ClauseSet {
    ghost use Rattle.std.specs.Prelude.{map};
    ghost use Rattle.sat_trail.specs.Known.{Clauses};

    ghost Value = { Clauses };

    ghost view = { λ s. map (λ key. key.keys) s.sets.keys };
}

impl ClauseSet {
    /// No clause.
    pub fn new(alloc: Global) -> ClauseSet
        ensures none { (clause : List ℤ) → spec.contains result clause ≡ false }
        ensures many { spec.many result ≡ 0 }
    {
        ClauseSet {
            alloc,
            sets: HashSet::new(alloc),
        }
    }

    /// How many sets of literals are there.
    pub fn len(&self) -> usize
        ensures len { result ≡ spec.many self.now }
        ensures small { result < 2 ^ 63 }
    {
        self.sets.len()
    }

    pub fn is_empty(&self) -> bool
        ensures { IsTrue result ↔ (self.now ≡ []) }
    {
        self.sets.is_empty()
    }

    /// Adds a clause, which may be there already.
    pub fn insert(&mut self, lits: &[i64]) -> Result<(), Memory>
        requires { AreLits lits.now }
        ensures { OnOk result ((clause : List ℤ)
            → spec.contains self.new clause ≡ (same_set clause lits.now || spec.contains self.old clause)) }
    {
        let key = set_of(self.alloc, lits)?;
        self.sets.insert(key)?;
        Ok(())
    }

    /// Whether a clause with the same literals is there. The only error is want of memory, here as below.
    pub fn contains(&self, lits: &[i64]) -> Result<bool, Memory>
        requires { AreLits lits.now }
        ensures { IfOk result (λ is_there. is_there ≡ spec.contains self.now lits.now) }
    {
        if self.is_empty() {
            return Ok(false);
        }
        let key = set_of(self.alloc, lits)?;
        Ok(self.sets.contains(&key))
    }

    /// Whether the clause was there; it is there no longer.
    pub fn remove(&mut self, lits: &[i64]) -> Result<bool, Memory>
        requires { AreLits lits.now }
        ensures test { IfOk result (λ was_there. was_there ≡ spec.contains self.old lits.now) }
        ensures others { OnOk result ((clause : List ℤ)
            → spec.contains self.new clause ≡ (not (same_set clause lits.now) && spec.contains self.old clause)) }
        ensures many { IfOk result (λ was_there.
            spec.many self.new + (if was_there then 1 else 0) ≡ spec.many self.old) }
    {
        if self.is_empty() {
            return Ok(false);
        }
        let key = set_of(self.alloc, lits)?;
        Ok(self.sets.remove(&key))
    }
}

fn set_of(alloc: Global, lits: &[i64]) -> Result<BTreeSet<i64>, Memory>
    requires { AreLits lits.now }
    ensures { IfOk result (λ set. set.keys ≡ sorted lits.now) }
{
    let mut set = BTreeSet::new(alloc);
    for lit in lits {
        set.insert(*lit)?;
    }
    Ok(set)
}
