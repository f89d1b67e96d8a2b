use crate::arena::Arena;
use crate::codes::{index_of, narrow};
use crate::gave_up::GaveUp;
use crate::propagation::Propagation;
use crate::reason::Reason;
use crate::trail::{Trail, Value};
use std::alloc::Global;

/// So many learnt clauses are held at least before some are dropped.
const LEAST: usize = 4000;

/// A learnt clause on so few levels is never dropped.
const FEW_LEVELS: u32 = 2;

/// Where a learnt clause begins, and on how many levels its literals stood.
#[derive(Debug, Clone, Copy)]
struct Learnt {
    at: u32,
    glue: u32,
}

/// The learnt clauses of three literals or more that are held.
#[derive(Drop)]
pub(crate) struct LearntClauses {
    alloc: Global,
    rows: Vec<Learnt>,
    /// So many words the formula's clauses take, which stand in front.
    base: usize,
    /// How many learnt clauses are held before some are dropped.
    most: usize,
}

impl LearntClauses {
    /// For a formula of so many clauses. As many learnt ones are held at first: with a third of them, formulas of a big
    /// memory lost what they needed, and took twenty times as long.
    pub(crate) fn new(alloc: Global, first: usize) -> LearntClauses {
        LearntClauses {
            alloc,
            rows: Vec::new(alloc),
            base: 0,
            most: if first < LEAST { LEAST } else { first },
        }
    }

    /// The formula's clauses take so many words.
    pub(crate) fn set_base(&mut self, base: usize) {
        self.base = base;
    }

    pub(crate) fn add(&mut self, at: u32, glue: u32) -> Result<(), GaveUp> {
        self.rows.push(Learnt { at, glue })?;
        Ok(())
    }

    pub(crate) fn is_due(&self) -> bool {
        self.rows.len() >= self.most
    }

    /// Drops about half of the learnt clauses, those on the most levels, and of these the older ones; and each clause
    /// that is true. There is no decision.
    pub(crate) fn reduce(&mut self, propagation: &mut Propagation) -> Result<(), GaveUp> {
        let most = self.median()?;
        let none = Arena::new(self.alloc);
        let old = std::mem::replace(&mut propagation.arena, none);
        propagation.watches.forget_long();
        keep_first(propagation, &old, self.base)?;
        self.base = propagation.arena.len();
        let mut rows = Vec::new(self.alloc);
        for place in 0..self.rows.len() {
            let row = self.rows[place];
            let is_wanted = row.glue <= FEW_LEVELS || rank(row, place) <= most;
            if is_wanted || is_reason(&propagation.trail, &old, row.at) {
                if let Some(at) = keep(propagation, &old, row.at)? {
                    let glue = row.glue;
                    rows.push(Learnt { at, glue })?;
                }
            }
        }
        self.rows = rows;
        self.most = self.most.saturating_add(self.most / 10);
        Ok(())
    }

    /// The rank that about half of the learnt clauses don't pass.
    fn median(&self) -> Result<u64, GaveUp> {
        let mut ranks = Vec::with_capacity(self.alloc, self.rows.len())?;
        for place in 0..self.rows.len() {
            ranks.push(rank(self.rows[place], place))?;
        }
        ranks.sort_unstable();
        match ranks.get(ranks.len() / 2) {
            Some(rank) => Ok(*rank),
            None => Ok(u64::MAX),
        }
    }
}

/// By how many levels, and then by age, the last place being the newest.
fn rank(row: Learnt, place: usize) -> u64 {
    let age = u32::MAX - narrow(place);
    u64::from(row.glue) * (1 << 32) + u64::from(age)
}

/// Keeps the clauses in the first words.
fn keep_first(propagation: &mut Propagation, old: &Arena, base: usize) -> Result<(), GaveUp> {
    let mut at = 0u32;
    for _ in 0..base {
        if at as usize >= base {
            break;
        }
        keep(propagation, old, at)?;
        at = narrow(old.end(at));
    }
    Ok(())
}

/// Where the clause is now; None where it is true, but not the reason of its first literal.
fn keep(propagation: &mut Propagation, old: &Arena, at: u32) -> Result<Option<u32>, GaveUp> {
    let lits = old.lits(at);
    let [one, other, ..] = lits else {
        return Ok(None);
    };
    let is_reason = is_reason(&propagation.trail, old, at);
    if !is_reason && any_true(&propagation.trail, lits) {
        return Ok(None);
    }
    let now = propagation.arena.add(old.id(at), lits)?;
    propagation.watch(now, *one, *other)?;
    if is_reason {
        propagation
            .trail
            .set_reason(index_of(*one), Reason::Long { at: now });
    }
    Ok(Some(now))
}

fn any_true(trail: &Trail, lits: &[u32]) -> bool {
    for lit in lits {
        if trail.value(*lit) == Value::True {
            return true;
        }
    }
    false
}

/// Whether the clause is the reason of its first literal.
fn is_reason(trail: &Trail, arena: &Arena, at: u32) -> bool {
    let Some(first) = arena.lits(at).get(0) else {
        return false;
    };
    if trail.value(*first) != Value::True {
        return false;
    }
    match trail.cause(index_of(*first)).reason {
        Reason::Long { at: reason } => reason == at,
        _ => false,
    }
}
