ghost use Rattle.std.specs.Prelude.{◌≡◌, ◌+◌, ◌-◌, ◌<◌, ◌^◌, pos, true, false, IfOk, OnOk};
ghost use Rattle.lrat_check.specs.Sets.{has};
ghost use Rattle.sat_trail.specs.Trail.{lits, decided, values_of};
ghost use Rattle.sat_search.specs.Turns.{Keeps, IsSearch, Looked, Learned, GoesOn, Turns};

use crate::ledger::Ledger;
use crate::order::Order;
use crate::turn::Turn;
use crate::usage::Usage;
use cnf_form::{Formula, clause_at};
use fv_text::{List, Memory};
use lrat_check::Step;
use sat_learn::{Learner, Learnt};
use sat_propagate::Propagation;
use sat_propagate::unit_scan::Scan;
use sat_trail::{ClauseList, Entry, Trail};
use std::alloc::Global;
use std::marker::Model;

/// A search in a formula with so many variables.
#[derive(Drop)]
pub(crate) struct Search<'a> {
    alloc: Global,
    vars: u64,
    /// The clauses of the formula and the learnt ones.
    ledger: Ledger<'a>,
    trail: Trail,
    /// How many clauses may still be learnt.
    left: u64,
    propagation: Propagation,
    order: Order,
    learner: Learner,
    usage: Usage,
}

impl<'a> Model for Search<'a> {
    ghost use Rattle.sat_search.specs.Turns.{State};

    ghost Value = { State };

    ghost view = { λ s. record {
      vars = s.vars;
      ledger = s.ledger;
      trail = s.trail;
      left = s.left;
      taken = s.propagation;
    } };
}

impl<'a> Search<'a> {
    /// The only error is want of memory, also where there are `MOST_CLAUSES` clauses or more.
    pub(crate) fn new(
        alloc: Global,
        formula: &'a Formula,
        budget: u64,
    ) -> Result<Search<'a>, Memory>
        requires { 0 < budget }
        ensures keeps { IfOk result (λ search. Keeps budget formula.now.clauses search) }
        ensures vars { IfOk result (λ search. search.vars ≡ formula.now.vars) }
    {
        let ledger = match Ledger::new(alloc, formula) {
            Ok(ledger) => ledger,
            Err(fault) => return Err(fault),
        };
        let order = order_of(alloc, formula)?;
        Ok(Search {
            alloc,
            vars: formula.vars(),
            ledger,
            trail: Trail::new(alloc),
            left: budget,
            propagation: Propagation::new(alloc),
            order,
            learner: Learner::new(alloc),
            usage: Usage::new(alloc, formula.len()),
        })
    }

    /// Looks at the clauses, and does what follows from what is found.
    pub(crate) fn turn(&mut self) -> Result<Turn, Memory>
        requires { IsSearch self.old }
        ensures { IfOk result (λ turn. Turns self.old self.new turn) }
    {
        let scan = self.propagation.next(self.ledger.clauses(), &self.trail)?;
        match scan {
            Scan::Unit(place, lit) => self.force(place, lit),
            Scan::Settled => self.decide(),
            Scan::Conflict(place) => {
                if self.trail.has_decision() {
                    self.learn(place)
                } else {
                    self.refute(place)
                }
            }
        }
    }

    /// The clause at the place forces the literal. The only error is want of memory, also where the place has more than
    /// 32 bits.
    fn force(&mut self, place: usize, lit: i64) -> Result<Turn, Memory>
        requires search { IsSearch self.old }
        requires looked { Looked self.old (Scan.Unit place lit) }
        ensures { IfOk result (λ turn. Turns self.old self.new turn) }
    {
        if place > u32::MAX as usize {
            return Err(Memory);
        }
        self.order.set_phase(lit);
        self.trail.push(Entry {
            lit,
            reason: Some(place as u32),
        })?;
        Ok(Turn::On)
    }

    /// All clauses are settled: a literal is chosen, if a variable has no value.
    fn decide(&mut self) -> Result<Turn, Memory>
        requires search { IsSearch self.old }
        requires looked { Looked self.old Scan.Settled }
        ensures { IfOk result (λ turn. Turns self.old self.new turn) }
    {
        match self.order.decide(self.vars, &self.trail) {
            None => Ok(Turn::Satisfied),
            Some(lit) => {
                self.trail.push(Entry { lit, reason: None })?;
                Ok(Turn::On)
            }
        }
    }

    /// A clause is learnt from that at the place, which is false behind a decision.
    fn learn(&mut self, place: usize) -> Result<Turn, Memory>
        requires search { IsSearch self.old }
        requires looked { Looked self.old (Scan.Conflict place) }
        requires decided { decided self.old.trail ≡ true }
        ensures { IfOk result (λ turn. Turns self.old self.new turn) }
    {
        let is_new = self.add_learnt(place)?;
        if !is_new {
            return Ok(Turn::On);
        }
        self.left -= 1;
        if self.left == 0 {
            return Ok(Turn::Spent);
        }
        self.tidy()?;
        Ok(Turn::On)
    }

    /// The clause that is learnt joins the others, and the trail is cut. Whether it is new.
    fn add_learnt(&mut self, place: usize) -> Result<bool, Memory>
        requires search { IsSearch self.old }
        requires looked { Looked self.old (Scan.Conflict place) }
        requires decided { decided self.old.trail ≡ true }
        ensures { IfOk result (λ is_new. Learned self.old self.new is_new) }
    {
        let learnt = self.learner.learn(
            self.ledger.clauses(),
            self.ledger.dropped(),
            &mut self.trail,
            place,
        )?;
        let Learnt { lits, mut hints } = learnt;
        hints.reverse();
        let is_new = self.ledger.add(&lits, &hints)?;
        note(
            &mut self.order,
            &mut self.usage,
            self.ledger.clauses(),
            &hints,
            self.trail.len(),
        )?;
        Ok(is_new)
    }

    /// Lets go of clauses, where there are many.
    fn tidy(&mut self) -> Result<(), Memory>
        requires { IsSearch self.old }
        ensures { OnOk result (GoesOn self.old self.new) }
    {
        if self.usage.is_due() {
            return self.forget();
        }
        Ok(())
    }

    /// Lets go of learnt clauses, and begins anew with those that stay.
    fn forget(&mut self) -> Result<(), Memory>
        requires { IsSearch self.old }
        ensures { OnOk result (GoesOn self.old self.new) }
    {
        let wanted = self.usage.wanted(self.ledger.clauses(), &self.trail)?;
        self.ledger.forget(&wanted)?;
        self.usage.forget(&wanted);
        self.trail = Trail::new(self.alloc);
        self.propagation = Propagation::new(self.alloc);
        self.order.cut(0);
        Ok(())
    }

    /// The clause at the place is false with no decision.
    fn refute(&mut self, place: usize) -> Result<Turn, Memory>
        requires search { IsSearch self.old }
        requires looked { Looked self.old (Scan.Conflict place) }
        requires undecided { decided self.old.trail ≡ false }
        ensures { IfOk result (λ turn. Turns self.old self.new turn) }
    {
        let learnt = self
            .learner
            .to_empty(self.ledger.clauses(), &mut self.trail, place)?;
        let Learnt { lits, mut hints } = learnt;
        hints.reverse();
        self.ledger.add(&lits, &hints)?;
        Ok(Turn::Refuted)
    }

    /// Whether each variable is true, variable 1 first.
    pub(crate) fn values(&self) -> Result<List<bool>, Memory>
        requires { self.now.vars < 2 ^ 63 }
        ensures { IfOk result (λ values. values ≡ values_of self.now.vars (lits self.now.trail)) }
    {
        values(self.alloc, self.vars, &self.trail)
    }

    pub(crate) fn into_steps(self) -> List<Step>
        ensures { result ≡ self.entry.ledger.steps }
    {
        let Search { ledger, .. } = self;
        ledger.into_steps()
    }
}

/// An order of the variables that the formula's clauses name.
fn order_of(alloc: Global, formula: &Formula) -> Result<Order, Memory> {
    let mut order = Order::new(alloc);
    for index in 0..formula.len() {
        order.meet(clause_at(formula, index))?;
    }
    Ok(order)
}

/// A conflict is over, and the trail cut to so many entries: the hints' clauses and their variables took part in it.
fn note(
    order: &mut Order,
    usage: &mut Usage,
    clauses: &ClauseList<'_>,
    hints: &[i64],
    len: usize,
) -> Result<(), Memory> {
    for hint in hints {
        let place = (hint.unsigned_abs() as usize).saturating_sub(1);
        usage.bump(place);
        if place < clauses.len() {
            order.bump(clauses.at(place));
        }
    }
    order.decay();
    order.cut(len);
    usage.decay(clauses.len())
}

/// Whether each variable is true on the trail, variable 1 first.
fn values(alloc: Global, vars: u64, trail: &Trail) -> Result<List<bool>, Memory>
    requires { vars < 2 ^ 63 }
    ensures { IfOk result (λ values. values ≡ values_of vars (lits trail.now)) }
{
    let mut values = List::new(alloc);
    for index in 0..vars {
        values.push(value_at(trail, index))?;
    }
    Ok(values)
}

/// Whether the variable with the index is true on the trail, variable 1's index being 0.
fn value_at(trail: &Trail, index: u64) -> bool
    requires { index < 2 ^ 63 - 1 }
    ensures { result ≡ has (lits trail.now) (pos (index + 1)) }
{
    trail.has(&(index as i64 + 1))
}
