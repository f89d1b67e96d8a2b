ghost use Rattle.std.specs.Prelude.{◌≡◌, ◌<◌, ◌+◌, List, ℤ, [], length, IfOk, OnOk};
ghost use Rattle.lrat_check.specs.Resolved.{Closed};
ghost use Rattle.lrat_check.specs.Store.{held_of};
ghost use Rattle.sat_trail.specs.Trail.{lits, Stand};
ghost use Rattle.sat_propagate.specs.Propagation.{AllLits, Sees, Holds, HoldsOn};

use crate::unit_scan::Scan;
use crate::watch_scan::Scan as Look;
use crate::watches::Watches;
use fv_text::Memory;
use lrat_check::Reading;
use sat_trail::{ClauseList, Trail};
use std::alloc::Global;
use std::marker::Model;

/// Which of a search's clauses are watched: the first ones, each under the id that is one above its place.
#[derive(Drop)]
pub struct Propagation {
    watches: Watches,
    /// How many clauses were taken up.
    many: usize,
    /// The places of those that have no two different literals.
    short: Vec<usize>,
    /// How many of these are true.
    looked: usize,
}

impl Model for Propagation {
    ghost use Rattle.sat_propagate.specs.Propagation.{Taken};

    ghost Value = { Taken };

    ghost view = { λ p. record { watches = p.watches; many = p.many; short = p.short.items; looked = p.looked } };
}

impl Propagation {
    pub fn new(alloc: Global) -> Propagation
        ensures { (clauses : List (List ℤ)) → Holds clauses [] result }
    {
        Propagation {
            watches: Watches::new(alloc),
            many: 0,
            short: Vec::new(alloc),
            looked: 0,
        }
    }

    /// A clause that is false or forces a literal, if there is one.
    pub fn next(&mut self, clauses: &ClauseList<'_>, trail: &Trail) -> Result<Scan, Memory>
        requires holds { Holds clauses.now trail.now self.old }
        requires stand { Stand clauses.now trail.now }
        requires lits { AllLits clauses.now }
        ensures sees { IfOk result (λ scan. Sees clauses.now (lits trail.now) scan) }
        ensures holds { IfOk result (λ scan. HoldsOn clauses.now trail.now self.new scan) }
    {
        self.take_up(clauses, trail)?;
        match self.watches.next(trail)? {
            Look::Conflict(id) => Ok(Scan::Conflict(id as usize - 1)),
            Look::Unit(id, lit) => Ok(Scan::Unit(id as usize - 1, lit)),
            Look::Settled => Ok(self.look_at_short(clauses, trail)),
        }
    }

    /// The clauses that came since are watched too.
    fn take_up(&mut self, clauses: &ClauseList<'_>, trail: &Trail) -> Result<(), Memory>
        requires holds { Holds clauses.now trail.now self.old }
        requires stand { Stand clauses.now trail.now }
        requires lits { AllLits clauses.now }
        ensures holds { OnOk result (Holds clauses.now trail.now self.new) }
        ensures many { OnOk result (self.new.many ≡ length clauses.now) }
    {
        'taking: while self.many < clauses.len() {
            self.take(clauses, trail)?;
        }
        Ok(())
    }

    /// The next clause is watched, if it has two different literals.
    fn take(&mut self, clauses: &ClauseList<'_>, trail: &Trail) -> Result<(), Memory>
        requires holds { Holds clauses.now trail.now self.old }
        requires stand { Stand clauses.now trail.now }
        requires lits { AllLits clauses.now }
        requires within { self.old.many < length clauses.now }
        ensures holds { OnOk result (Holds clauses.now trail.now self.new) }
        ensures many { OnOk result (self.new.many ≡ self.old.many + 1) }
    {
        let _len = clauses.len();
        let place = self.many;
        let clause = clauses.at(place);
        let is_watched = self.watches.add(place as u64 + 1, clause, trail)?;
        self.many += 1;
        if !is_watched {
            self.short.push(place)?;
        }
        Ok(())
    }

    /// What those come to that can't be watched, where all others are settled.
    fn look_at_short(&mut self, clauses: &ClauseList<'_>, trail: &Trail) -> Scan
        requires holds { Holds clauses.now trail.now self.old }
        requires stand { Stand clauses.now trail.now }
        requires lits { AllLits clauses.now }
        requires many { self.old.many ≡ length clauses.now }
        requires closed { Closed (held_of self.old.watches.store) (lits trail.now) }
        ensures sees { Sees clauses.now (lits trail.now) result }
        ensures holds { Holds clauses.now trail.now self.new }
        ensures watches { self.new.watches ≡ self.old.watches }
    {
        for index in self.looked..self.short.len() {
            let place = self.short[index];
            match trail.read(clauses.at(place)) {
                Reading::False => return Scan::Conflict(place),
                Reading::Unit(lit) => return Scan::Unit(place, lit),
                Reading::True => {}
                Reading::Open => {}
            }
            self.looked = index + 1;
        }
        Scan::Settled
    }
}
