ghost use Rattle.std.specs.Prelude.{◌≡◌, ◌+◌, ◌<◌, ◌≤◌, ◌^◌, [], length, IfOk, OnOk};
ghost use Rattle.lrat_check.specs.Sets.{AreLits};
ghost use Rattle.sat_trail.specs.Known.{many};
ghost use Rattle.sat_search.specs.Ledger.{Tells, IsLedger, Adds, StaysTold};

use crate::ids::{by_ids, ids_to};
use cnf_form::Formula;
use fv_text::{List, Memory};
use lrat_check::Step;
use sat_trail::{ClauseList, ClauseSet};
use std::alloc::Global;
use std::marker::Model;

/// So many steps have no place in memory, and below it each id has at most 18 digits.
pub const MOST_CLAUSES: usize = 999_999_999_999_999_999;

/// The clauses that a search holds, by their places, and the steps that add and delete them.
#[derive(Drop)]
pub struct Ledger<'a> {
    alloc: Global,
    /// Those of the formula first.
    clauses: ClauseList<'a>,
    /// The id of each clause.
    ids: Vec<u64>,
    /// How many are the formula's.
    first: usize,
    /// The highest id so far.
    top: u64,
    steps: List<Step>,
    /// Those that were deleted and not learnt again.
    dropped: ClauseSet,
}

impl<'a> Model for Ledger<'a> {
    ghost use Rattle.sat_search.specs.Ledger.{State};

    ghost Value = { State };

    ghost view = { λ l. record {
      clauses = l.clauses;
      ids = l.ids.items;
      first = l.first;
      top = l.top;
      steps = l.steps;
      dropped = l.dropped;
    } };
}

impl<'a> Ledger<'a> {
    /// The formula's clauses, and no step. The only error is want of memory, also where there are `MOST_CLAUSES`
    /// clauses or more.
    pub fn new(alloc: Global, formula: &'a Formula) -> Result<Ledger<'a>, Memory>
        ensures told { IfOk result (λ ledger. Tells formula.now.vars formula.now.clauses [] ledger) }
        ensures clauses { IfOk result (λ ledger. ledger.clauses ≡ formula.now.clauses) }
    {
        let _vars = formula.vars();
        let clauses = ClauseList::new(alloc, formula);
        let first = clauses.len();
        if first >= MOST_CLAUSES {
            return Err(Memory);
        }
        Ok(Ledger {
            alloc,
            clauses,
            ids: ids_to(alloc, first)?,
            first,
            top: first as u64,
            steps: List::new(alloc),
            dropped: ClauseSet::new(alloc),
        })
    }

    /// The clauses that are held, by their places. Places change where clauses are let go.
    pub fn clauses(&self) -> &ClauseList<'a>
        ensures { result.now ≡ self.now.clauses }
    {
        &self.clauses
    }

    /// How many clauses are the formula's. They have the first places.
    pub fn first(&self) -> usize
        ensures { result ≡ self.now.first }
    {
        self.first
    }

    /// The clauses that were deleted and not learnt again.
    pub(crate) fn dropped(&self) -> &ClauseSet
        ensures { result.now ≡ self.now.dropped }
    {
        &self.dropped
    }

    /// The steps in order.
    pub fn into_steps(self) -> List<Step>
        ensures { result ≡ self.entry.steps }
    {
        let Ledger { steps, .. } = self;
        steps
    }

    /// Adds a clause behind the others, with its step, and says whether it is new: whether none that was deleted and
    /// not learnt again has the same literals. A hint is one above a clause's place. The only error is want of memory,
    /// also where `MOST_CLAUSES` ids are given.
    pub fn add(&mut self, lits: &[i64], hints: &[i64]) -> Result<bool, Memory>
        requires ledger { IsLedger self.old }
        requires lits { AreLits lits.now }
        ensures { IfOk result (λ is_new. Adds self.old self.new lits.now hints.now is_new) }
    {
        if self.top as usize >= MOST_CLAUSES {
            return Err(Memory);
        }
        let id = self.top + 1;
        let hints = List::from_vec(by_ids(self.alloc, &self.ids, hints)?);
        let was_dropped = self.dropped.remove(lits)?;
        self.clauses
            .push(List::from_vec(Vec::from_slice(self.alloc, lits)?))?;
        self.ids.push(id)?;
        self.top = id;
        let lits = List::from_vec(Vec::from_slice(self.alloc, lits)?);
        self.steps.push(Step::Add { id, lits, hints })?;
        Ok(!was_dropped)
    }

    /// Lets go of learnt clauses that aren't wanted, each by a step that deletes it. The tests are by place; a clause
    /// without one is wanted. Which clauses stay is in no clause.
    pub(crate) fn forget(&mut self, wanted: &[bool]) -> Result<(), Memory>
        requires { IsLedger self.old }
        ensures told { OnOk result (StaysTold self.old self.new) }
        ensures few { OnOk result (many self.new.dropped < 2 ^ 63) }
    {
        let mut place = self.clauses.len();
        'sifting: while place > self.first {
            place -= 1;
            self.sift(wanted, place)?;
        }
        let _count = self.dropped.len();
        Ok(())
    }

    /// Lets go of the clause at the place, if it isn't wanted.
    fn sift(&mut self, wanted: &[bool], place: usize) -> Result<(), Memory>
        requires ledger { IsLedger self.old }
        requires learnt { self.old.first ≤ place }
        requires within { place < length self.old.clauses }
        ensures told { OnOk result (StaysTold self.old self.new) }
        ensures first { OnOk result (self.new.first ≡ self.old.first) }
        ensures many { OnOk result (length self.old.clauses ≤ length self.new.clauses + 1) }
    {
        if is_wanted(wanted, place) {
            return Ok(());
        }
        self.drop_at(place)
    }

    /// Lets go of the clause at the place, to which the last one goes.
    fn drop_at(&mut self, place: usize) -> Result<(), Memory>
        requires ledger { IsLedger self.old }
        requires learnt { self.old.first ≤ place }
        requires within { place < length self.old.clauses }
        ensures told { OnOk result (StaysTold self.old self.new) }
        ensures first { OnOk result (self.new.first ≡ self.old.first) }
        ensures many { OnOk result (length self.old.clauses ≤ length self.new.clauses + 1) }
    {
        let Some(clause) = self.clauses.swap_remove(place) else {
            return Ok(());
        };
        let id = self.ids.swap_remove(place);
        self.dropped.insert(clause.as_slice())?;
        let mut ids = Vec::with_capacity(self.alloc, 1)?;
        ids.push(id)?;
        self.steps.push(Step::Delete {
            id: self.top,
            ids: List::from_vec(ids),
        })?;
        Ok(())
    }
}

fn is_wanted(wanted: &[bool], place: usize) -> bool {
    match wanted.get(place) {
        Some(wanted) => *wanted,
        None => true,
    }
}
