use fv_text::Memory;
use sat_trail::{ClauseList, Trail};
use std::alloc::Global;

/// Where an activity reaches this, all are made smaller.
const MOST_ACTIVITY: u64 = 1 << 60;

/// So many learnt clauses are held at least before some are let go.
const LEAST: usize = 2000;

/// Which learnt clauses took part in the latest conflicts, by their places.
///
/// No clause says so: which ones are let go is a guess, and whatever is let go the search goes on.
#[derive(Drop)]
pub(crate) struct Usage {
    alloc: Global,
    /// How many clauses are the formula's. They have the first places.
    first: usize,
    /// Those of the learnt clauses.
    activities: Vec<u64>,
    /// What the next conflict adds to an activity.
    step: u64,
    /// How many learnt clauses are held before some are let go.
    most: usize,
}

impl Usage {
    /// For a formula of so many clauses.
    pub(crate) fn new(alloc: Global, first: usize) -> Usage {
        let third = first / 3;
        Usage {
            alloc,
            first,
            activities: Vec::new(alloc),
            step: 1 << 20,
            most: if third < LEAST { LEAST } else { third },
        }
    }

    /// The clause at the place took part in a conflict.
    pub(crate) fn bump(&mut self, place: usize) {
        if place < self.first {
            return;
        }
        if let Some(activity) = self.activities.get_mut(place - self.first) {
            *activity = activity.saturating_add(self.step);
        }
    }

    /// A conflict is over, and so many clauses are held: the next conflicts count for more.
    pub(crate) fn decay(&mut self, many: usize) -> Result<(), Memory> {
        let learnt = many.saturating_sub(self.first);
        self.activities.resize(learnt, self.step)?;
        self.step = self.step.saturating_add(self.step / 1024);
        if self.step >= MOST_ACTIVITY {
            for activity in self.activities.iter_mut() {
                *activity /= 1 << 40;
            }
            self.step /= 1 << 40;
        }
        Ok(())
    }

    /// Whether some of the clauses are to be let go.
    pub(crate) fn is_due(&self) -> bool {
        self.activities.len() >= self.most
    }

    /// The less active half of the learnt clauses isn't wanted, but for those with two literals or fewer, and for those
    /// that force a literal of the trail.
    pub(crate) fn wanted(
        &mut self,
        clauses: &ClauseList<'_>,
        trail: &Trail,
    ) -> Result<Vec<bool>, Memory> {
        let least = self.median()?;
        let mut wanted = Vec::new(self.alloc);
        for place in 0..clauses.len() {
            let is_short = clauses.at(place).len() <= 2;
            wanted.push(is_short || self.activity(place) >= least)?;
        }
        want_reasons(&mut wanted, trail);
        self.most = self.most.saturating_add(self.most / 10);
        Ok(wanted)
    }

    /// The activity of the clause at the place; those of the formula are above all others.
    fn activity(&self, place: usize) -> u64 {
        if place < self.first {
            return u64::MAX;
        }
        match self.activities.get(place - self.first) {
            Some(activity) => *activity,
            None => u64::MAX,
        }
    }

    /// The activity that about half of the learnt clauses have or surpass.
    fn median(&self) -> Result<u64, Memory> {
        let mut learnt = Vec::from_slice(self.alloc, self.activities.as_slice())?;
        learnt.sort()?;
        match learnt.get(learnt.len() / 2) {
            Some(activity) => Ok(*activity),
            None => Ok(0),
        }
    }

    /// The clauses that weren't wanted were let go, from the last place on, each replaced by the last one.
    pub(crate) fn forget(&mut self, wanted: &[bool]) {
        let many = self.activities.len();
        for back in 0..many {
            let place = many - 1 - back;
            let is_wanted = is_wanted(wanted, self.first.saturating_add(place));
            if !is_wanted && place < self.activities.len() {
                self.activities.swap_remove(place);
            }
        }
    }
}

/// The clauses that force a literal of the trail are wanted.
fn want_reasons(wanted: &mut Vec<bool>, trail: &Trail) {
    for place in 0..trail.len() {
        if let Some(lit) = trail.lit_at(place) {
            if let Some(reason) = trail.reason(&lit) {
                if let Some(is_wanted) = wanted.get_mut(reason) {
                    *is_wanted = true;
                }
            }
        }
    }
}

fn is_wanted(wanted: &[bool], place: usize) -> bool {
    match wanted.get(place) {
        Some(wanted) => *wanted,
        None => true,
    }
}
