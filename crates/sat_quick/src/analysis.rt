use crate::codes::{flip, index_of};
use crate::decisions::Decisions;
use crate::gave_up::GaveUp;
use crate::propagation::Propagation;
use crate::reason::{Conflict, Reason};
use crate::trail::Trail;
use std::alloc::Global;

/// What a conflict teaches: the clause that is false, with the clauses that forced its literals put in their place down
/// to the first literal of the last level that all of it hangs on.
#[derive(Drop)]
pub(crate) struct Analysis {
    /// Which variables were met, by their indexes.
    seen: Vec<bool>,
    /// Those that were.
    met: Vec<usize>,
    /// The literals of the clause, the one that it forces first.
    pub lits: Vec<u32>,
    /// The ids of the clauses that took part, the one that is false first.
    ids: Vec<u32>,
    /// The variables met that have values without a decision.
    pub fixed: Vec<usize>,
    /// The places on the trail of literals that are left out, as the others of the clause force them.
    implied: Vec<u32>,
    /// How many of the literals met stand on the last level, and were not put in the place of another yet.
    open: usize,
    /// The hints of the clause, in the order of propagation.
    pub hints: Vec<u32>,
}

impl Analysis {
    /// For so many variables.
    pub(crate) fn new(alloc: Global, vars: usize) -> Result<Analysis, GaveUp> {
        let mut seen = Vec::new(alloc);
        seen.resize(vars, false)?;
        Ok(Analysis {
            seen,
            met: Vec::new(alloc),
            lits: Vec::new(alloc),
            ids: Vec::new(alloc),
            fixed: Vec::new(alloc),
            implied: Vec::new(alloc),
            open: 0,
            hints: Vec::new(alloc),
        })
    }

    /// Nothing is met.
    fn begin(&mut self) {
        for index in self.met.iter() {
            if let Some(seen) = self.seen.get_mut(*index) {
                *seen = false;
            }
        }
        self.met.clear();
        self.lits.clear();
        self.ids.clear();
        self.fixed.clear();
        self.implied.clear();
        self.hints.clear();
        self.open = 0;
    }

    fn is_seen(&self, index: usize) -> bool {
        match self.seen.get(index) {
            Some(seen) => *seen,
            None => true,
        }
    }

    /// Whether the variable wasn't met before.
    fn see(&mut self, index: usize) -> Result<bool, GaveUp> {
        if self.is_seen(index) {
            return Ok(false);
        }
        if let Some(seen) = self.seen.get_mut(index) {
            *seen = true;
        }
        self.met.push(index)?;
        Ok(true)
    }

    /// A false literal of a clause that took part.
    fn meet(&mut self, trail: &Trail, decisions: &mut Decisions, code: u32) -> Result<(), GaveUp> {
        let index = index_of(code);
        if !self.see(index)? {
            return Ok(());
        }
        let level = trail.cause(index).level;
        if level == 0 {
            self.fixed.push(index)?;
            return Ok(());
        }
        decisions.bump(index);
        if level >= trail.level() {
            self.open = self.open.saturating_add(1);
        } else {
            self.lits.push(code)?;
        }
        Ok(())
    }

    /// The literals of the clause that is false are met.
    fn meet_conflict(
        &mut self,
        propagation: &Propagation,
        decisions: &mut Decisions,
        conflict: Conflict,
    ) -> Result<(), GaveUp> {
        let trail = &propagation.trail;
        match conflict {
            Conflict::Empty { id } => self.ids.push(id)?,
            Conflict::Unit { id, lit } => {
                self.ids.push(id)?;
                self.meet(trail, decisions, lit)?;
            }
            Conflict::Short { id, one, other } => {
                self.ids.push(id)?;
                self.meet(trail, decisions, one)?;
                self.meet(trail, decisions, other)?;
            }
            Conflict::Long { at } => {
                self.ids.push(propagation.arena.id(at))?;
                for lit in propagation.arena.lits(at) {
                    self.meet(trail, decisions, *lit)?;
                }
            }
        }
        Ok(())
    }

    /// The other literals of the clause that forced the literal are met.
    fn meet_reason(
        &mut self,
        propagation: &Propagation,
        decisions: &mut Decisions,
        code: u32,
    ) -> Result<(), GaveUp> {
        let trail = &propagation.trail;
        let reason = trail.cause(index_of(code)).reason;
        self.ids.push(propagation.id_of(reason))?;
        match reason {
            Reason::Decision | Reason::Unit { .. } => {}
            Reason::Short { other, .. } => self.meet(trail, decisions, other)?,
            Reason::Long { at } => {
                for lit in propagation.arena.lits(at) {
                    if *lit != code {
                        self.meet(trail, decisions, *lit)?;
                    }
                }
            }
        }
        Ok(())
    }

    /// Works out the clause and its hints, but for those of the fixed variables.
    pub(crate) fn learn(
        &mut self,
        propagation: &Propagation,
        decisions: &mut Decisions,
        conflict: Conflict,
    ) -> Result<(), GaveUp> {
        self.begin();
        self.lits.push(0)?;
        self.meet_conflict(propagation, decisions, conflict)?;
        let count = propagation.trail.len();
        for back in 0..count {
            let Some(lit) = propagation.trail.lit_at(count - 1 - back) else {
                break;
            };
            if self.is_seen(index_of(lit)) {
                if self.open <= 1 {
                    self.set_first(flip(lit));
                    break;
                }
                self.open -= 1;
                self.meet_reason(propagation, decisions, lit)?;
            }
        }
        self.shorten(propagation)
    }

    fn set_first(&mut self, code: u32) {
        if let Some(first) = self.lits.get_mut(0) {
            *first = code;
        }
    }

    /// Leaves out the literals that the others of the clause force.
    fn shorten(&mut self, propagation: &Propagation) -> Result<(), GaveUp> {
        let mut kept = 1usize;
        for place in 1..self.lits.len() {
            let Some(lit) = self.lits.get(place) else {
                break;
            };
            let lit = *lit;
            if self.is_implied(propagation, lit) {
                self.leave_out(propagation, lit)?;
            } else {
                if let Some(set) = self.lits.get_mut(kept) {
                    *set = lit;
                }
                kept = kept.saturating_add(1);
            }
        }
        self.lits.truncate(kept);
        Ok(())
    }

    /// Whether the false literal was forced by literals that are met or have their values without a decision.
    fn is_implied(&self, propagation: &Propagation, code: u32) -> bool {
        let trail = &propagation.trail;
        match trail.cause(index_of(code)).reason {
            Reason::Decision => false,
            Reason::Unit { .. } => true,
            Reason::Short { other, .. } => self.is_known(trail, other),
            Reason::Long { at } => propagation
                .arena
                .lits(at)
                .iter()
                .all(|lit| self.is_known(trail, *lit)),
        }
    }

    fn is_known(&self, trail: &Trail, code: u32) -> bool {
        let index = index_of(code);
        self.is_seen(index) || trail.cause(index).level == 0
    }

    /// The literal, which others force, is left out.
    fn leave_out(&mut self, propagation: &Propagation, code: u32) -> Result<(), GaveUp> {
        let cause = propagation.trail.cause(index_of(code));
        self.implied.push(cause.place)?;
        match cause.reason {
            Reason::Decision | Reason::Unit { .. } => {}
            Reason::Short { other, .. } => self.fix(&propagation.trail, other)?,
            Reason::Long { at } => {
                for lit in propagation.arena.lits(at) {
                    self.fix(&propagation.trail, *lit)?;
                }
            }
        }
        Ok(())
    }

    /// The literal is met, if it has its value without a decision.
    fn fix(&mut self, trail: &Trail, code: u32) -> Result<(), GaveUp> {
        let index = index_of(code);
        if trail.cause(index).level == 0 && self.see(index)? {
            self.fixed.push(index)?;
        }
        Ok(())
    }

    /// The hints: the clauses that give the fixed variables their values, those of the literals left out, and those
    /// that took part, the one that is false last.
    pub(crate) fn put_hints(&mut self, propagation: &Propagation) -> Result<(), GaveUp> {
        self.hints.clear();
        for index in self.fixed.iter() {
            let reason = propagation.trail.cause(*index).reason;
            self.hints.push(propagation.id_of(reason))?;
        }
        self.implied.sort_unstable();
        for place in self.implied.iter() {
            if let Some(lit) = propagation.trail.lit_at(*place as usize) {
                let reason = propagation.trail.cause(index_of(lit)).reason;
                self.hints.push(propagation.id_of(reason))?;
            }
        }
        for id in self.ids.iter().rev() {
            self.hints.push(*id)?;
        }
        Ok(())
    }

    /// The highest level of the clause's literals but the first, one of which comes second.
    pub(crate) fn second_level(&mut self, trail: &Trail) -> u32 {
        let mut most = 0;
        let mut found = 0usize;
        for place in 1..self.lits.len() {
            let Some(lit) = self.lits.get(place) else {
                break;
            };
            let level = trail.cause(index_of(*lit)).level;
            if level > most {
                most = level;
                found = place;
            }
        }
        if 1 < found && found < self.lits.len() {
            self.lits.swap(1, found);
        }
        most
    }

    /// On how many levels the clause's literals stand.
    pub(crate) fn glue(&self, stamps: &mut Stamps, trail: &Trail) -> Result<u32, GaveUp> {
        let mut count = 0u32;
        stamps.begin();
        for lit in self.lits.iter() {
            let level = trail.cause(index_of(*lit)).level;
            if stamps.put(level as usize)? {
                count = count.saturating_add(1);
            }
        }
        Ok(count)
    }

    /// The hints of the empty clause, where a clause is false with no decision: the clauses that forced its literals,
    /// as far as it hangs on them.
    pub(crate) fn refute(
        &mut self,
        propagation: &Propagation,
        decisions: &mut Decisions,
        conflict: Conflict,
    ) -> Result<(), GaveUp> {
        self.begin();
        self.meet_conflict(propagation, decisions, conflict)?;
        let count = propagation.trail.len();
        for back in 0..count {
            let Some(lit) = propagation.trail.lit_at(count - 1 - back) else {
                break;
            };
            if self.is_seen(index_of(lit)) {
                self.meet_reason(propagation, decisions, lit)?;
            }
        }
        for id in self.ids.iter().rev() {
            self.hints.push(*id)?;
        }
        Ok(())
    }
}

/// Which places were met since the last beginning.
#[derive(Drop)]
pub(crate) struct Stamps {
    stamps: Vec<u32>,
    now: u32,
}

impl Stamps {
    pub(crate) fn new(alloc: Global) -> Stamps {
        Stamps {
            stamps: Vec::new(alloc),
            now: 0,
        }
    }

    pub(crate) fn begin(&mut self) {
        if self.now == u32::MAX {
            self.stamps.clear();
            self.now = 0;
        }
        self.now = self.now.saturating_add(1);
    }

    /// Whether the place wasn't met.
    pub(crate) fn put(&mut self, place: usize) -> Result<bool, GaveUp> {
        if place >= self.stamps.len() {
            self.stamps.resize(place.saturating_add(1), 0)?;
        }
        match self.stamps.get_mut(place) {
            Some(stamp) => {
                let is_new = *stamp != self.now;
                *stamp = self.now;
                Ok(is_new)
            }
            None => Ok(true),
        }
    }

    /// Whether the place was met.
    pub(crate) fn has(&self, place: usize) -> bool {
        match self.stamps.get(place) {
            Some(stamp) => *stamp == self.now,
            None => false,
        }
    }
}
