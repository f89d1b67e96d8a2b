use crate::arena::Arena;
use crate::codes::flip;
use crate::gave_up::GaveUp;
use crate::reason::{Conflict, Reason};
use crate::trail::{Trail, Value};
use crate::watches::{Watch, Watches};

/// The clauses, where they are watched, and what is true.
#[derive(Drop)]
pub(crate) struct Propagation {
    pub arena: Arena,
    pub watches: Watches,
    pub trail: Trail,
}

/// What becomes of a watch of a literal that became false.
#[derive(Debug, Clone, Copy)]
enum Visit {
    Stays(Watch),
    /// Another literal is watched.
    Leaves,
    /// It stays, and the clause is false.
    Conflict(Watch),
}

impl Propagation {
    /// Makes true what the clauses force, until one is false or nothing is forced.
    pub(crate) fn propagate(&mut self) -> Result<Option<Conflict>, GaveUp> {
        for _ in 0..usize::MAX {
            let Some(lit) = self.trail.next() else {
                return Ok(None);
            };
            if let Some(conflict) = self.look_at_short(flip(lit))? {
                return Ok(Some(conflict));
            }
            if let Some(conflict) = self.look_at_long(flip(lit))? {
                return Ok(Some(conflict));
            }
        }
        Ok(None)
    }

    /// The literal became false: looks at the clauses that have one other literal.
    fn look_at_short(&mut self, code: u32) -> Result<Option<Conflict>, GaveUp> {
        for short in self.watches.shorts(code) {
            let id = short.id;
            let other = short.other;
            match self.trail.value(other) {
                Value::True => {}
                Value::False => {
                    return Ok(Some(Conflict::Short {
                        id,
                        one: code,
                        other,
                    }));
                }
                Value::Open => self.trail.push(other, Reason::Short { id, other: code })?,
            }
        }
        Ok(None)
    }

    /// The literal became false: looks at the clauses that watch it. Those that stay move to the front of the list.
    fn look_at_long(&mut self, code: u32) -> Result<Option<Conflict>, GaveUp> {
        let mut list = self.watches.take(code);
        let mut kept = 0usize;
        let mut found = None;
        for place in 0..list.len() {
            let Some(watch) = list.get(place) else {
                break;
            };
            let watch = *watch;
            let mut stays = watch;
            if found.is_none() && self.trail.value(watch.blocker) != Value::True {
                match self.visit(code, watch)? {
                    Visit::Stays(watch) => stays = watch,
                    Visit::Leaves => continue,
                    Visit::Conflict(watch) => {
                        stays = watch;
                        found = Some(Conflict::Long { at: watch.at });
                    }
                }
            }
            if let Some(set) = list.get_mut(kept) {
                *set = stays;
            }
            kept = kept.saturating_add(1);
        }
        list.truncate(kept);
        self.watches.put_back(code, list);
        Ok(found)
    }

    /// Looks at a clause that watches the literal, which became false.
    #[inline]
    fn visit(&mut self, code: u32, watch: Watch) -> Result<Visit, GaveUp> {
        let lits = self.arena.lits_mut(watch.at);
        if lits.len() < 2 {
            return Ok(Visit::Stays(watch));
        }
        if lits[0] == code {
            lits[0] = lits[1];
            lits[1] = code;
        }
        let first = lits[0];
        let stays = Watch {
            at: watch.at,
            blocker: first,
        };
        let value = self.trail.value(first);
        if value == Value::True {
            return Ok(Visit::Stays(stays));
        }
        for place in 2..lits.len() {
            let next = lits[place];
            if self.trail.value(next) != Value::False {
                lits[1] = next;
                lits[place] = code;
                self.watches.push(next, stays)?;
                return Ok(Visit::Leaves);
            }
        }
        if value == Value::False {
            return Ok(Visit::Conflict(stays));
        }
        self.trail.push(first, Reason::Long { at: watch.at })?;
        Ok(Visit::Stays(stays))
    }

    /// Adds a clause of two literals or more, of which the first two are watched. Why its first one is true, if it
    /// becomes so next.
    pub(crate) fn attach(&mut self, id: u32, lits: &[u32]) -> Result<Reason, GaveUp> {
        match lits {
            [one, other] => {
                self.watches.add_short(id, *one, *other)?;
                Ok(Reason::Short { id, other: *other })
            }
            [one, other, ..] => {
                let at = self.arena.add(id, lits)?;
                self.watch(at, *one, *other)?;
                Ok(Reason::Long { at })
            }
            _ => Ok(Reason::Unit { id }),
        }
    }

    /// The clause watches these literals.
    pub(crate) fn watch(&mut self, at: u32, one: u32, other: u32) -> Result<(), GaveUp> {
        self.watches.push(one, Watch { at, blocker: other })?;
        self.watches.push(other, Watch { at, blocker: one })
    }

    /// The id of the clause that forced a literal; 0 for a decision.
    pub(crate) fn id_of(&self, reason: Reason) -> u32 {
        match reason {
            Reason::Decision => 0,
            Reason::Unit { id } => id,
            Reason::Short { id, .. } => id,
            Reason::Long { at } => self.arena.id(at),
        }
    }
}
