use crate::gave_up::GaveUp;
use std::alloc::Global;

/// Where the literals and the hints of a derived clause end; those of the next one begin there.
#[derive(Debug, Clone, Copy)]
struct Ends {
    lits: usize,
    hints: usize,
}

/// The clauses that were derived, with the ids of those that each one comes from. Literals are codes.
#[derive(Drop)]
pub(crate) struct Log {
    /// The ids up to this one are those of the formula's clauses.
    first: u32,
    /// So many clauses with a literal may be added, less one.
    left: u64,
    lits: Vec<u32>,
    hints: Vec<u32>,
    ends: Vec<Ends>,
}

impl Log {
    /// For a formula of so many clauses. Fewer clauses are derived than the budget, the empty one aside.
    pub(crate) fn new(alloc: Global, first: u32, budget: u64) -> Log {
        Log {
            first,
            left: budget,
            lits: Vec::new(alloc),
            hints: Vec::new(alloc),
            ends: Vec::new(alloc),
        }
    }

    /// The id of the clause, which propagation along the hints leads to.
    pub(crate) fn add(&mut self, lits: &[u32], hints: &[u32]) -> Result<u32, GaveUp> {
        let Ok(place) = u32::try_from(self.ends.len()) else {
            return Err(GaveUp);
        };
        let Some(id) = place.saturating_add(1).checked_add(self.first) else {
            return Err(GaveUp);
        };
        if !lits.is_empty() {
            if self.left < 2 {
                return Err(GaveUp);
            }
            self.left -= 1;
        }
        self.lits.extend_from_slice(lits)?;
        self.hints.extend_from_slice(hints)?;
        self.ends.push(Ends {
            lits: self.lits.len(),
            hints: self.hints.len(),
        })?;
        Ok(id)
    }

    /// How many clauses were derived.
    pub(crate) fn len(&self) -> usize {
        self.ends.len()
    }

    /// How many clauses the formula has.
    pub(crate) fn first(&self) -> u32 {
        self.first
    }

    /// The place of the derived clause that has the id.
    pub(crate) fn place_of(&self, id: u32) -> Option<usize> {
        if id > self.first {
            Some((id - self.first - 1) as usize)
        } else {
            None
        }
    }

    fn ends_before(&self, place: usize) -> Ends {
        let none = Ends { lits: 0, hints: 0 };
        if place == 0 {
            return none;
        }
        match self.ends.get(place - 1) {
            Some(ends) => *ends,
            None => none,
        }
    }

    /// The literals of the clause at the place.
    pub(crate) fn lits(&self, place: usize) -> &[u32] {
        let start = self.ends_before(place).lits;
        let end = self.ends_before(place.saturating_add(1)).lits;
        part(&self.lits, start, end)
    }

    /// The ids that the clause at the place comes from, in the order of propagation.
    pub(crate) fn hints(&self, place: usize) -> &[u32] {
        let start = self.ends_before(place).hints;
        let end = self.ends_before(place.saturating_add(1)).hints;
        part(&self.hints, start, end)
    }
}

fn part(all: &[u32], start: usize, end: usize) -> &[u32] {
    if start <= end && end <= all.len() {
        &all[start..end]
    } else {
        &[]
    }
}
