ghost use Rattle.std.specs.Prelude.{◌≡◌, ◌<◌, ◌-◌, ◌^◌, [], true, false, length, reverse, IfOk};
ghost use Rattle.sat_trail.specs.Trail.{decided};
ghost use Rattle.sat_propagate.specs.Propagation.{AllLits};
ghost use Rattle.sat_learn.specs.Analysis.{Derives, IsConflict};
ghost use Rattle.sat_learn.specs.Learning.{Learns};

use crate::analysis::{Learnt, to_empty};
use crate::learning::learn;
use crate::lit_set::LitSet;
use fv_text::Memory;
use sat_quick::Restarts;
use sat_trail::{ClauseList, ClauseSet, Trail};
use std::alloc::Global;

/// Learns from conflicts, and keeps from one to the next where it traces them and when the search begins anew.
#[derive(Drop)]
pub struct Learner {
    alloc: Global,
    set: LitSet,
    restarts: Restarts,
}

impl Learner {
    pub fn new(alloc: Global) -> Learner {
        Learner {
            alloc,
            set: LitSet::new(alloc),
            restarts: Restarts::new(),
        }
    }

    /// Learns a clause from one that is false, and takes the trail back to where it forces a literal, or, now and then,
    /// where the clause is none of the dropped ones, to the beginning. The only error is want of memory.
    pub fn learn(
        &mut self,
        clauses: &ClauseList<'_>,
        dropped: &ClauseSet,
        trail: &mut Trail,
        conflict: usize,
    ) -> Result<Learnt, Memory>
        requires few { length clauses.now < 2 ^ 63 - 1 }
        requires lits { AllLits clauses.now }
        requires decided { decided trail.old ≡ true }
        requires conflict { IsConflict clauses.now trail.old conflict }
        ensures { IfOk result (λ l.
            Learns clauses.now l.lits.items (reverse l.hints.items) trail.old trail.new) }
    {
        let is_due = self.restarts.is_due();
        learn(
            self.alloc,
            clauses,
            dropped,
            trail,
            &mut self.set,
            conflict,
            is_due,
        )
    }

    /// Takes back all entries, none of which is a decision: the clause is empty then.
    pub fn to_empty(
        &mut self,
        clauses: &ClauseList<'_>,
        trail: &mut Trail,
        conflict: usize,
    ) -> Result<Learnt, Memory>
        requires few { length clauses.now < 2 ^ 63 - 1 }
        requires lits { AllLits clauses.now }
        requires undecided { decided trail.old ≡ false }
        requires conflict { IsConflict clauses.now trail.old conflict }
        ensures derives { IfOk result (λ l. Derives clauses.now trail.new l.lits.items (reverse l.hints.items)) }
        ensures empty { IfOk result (λ l. l.lits.items ≡ []) }
    {
        to_empty(self.alloc, clauses, trail, &mut self.set, conflict)
    }
}
