use crate::analysis::{Analysis, Stamps};
use crate::arena::Arena;
use crate::codes::{index_of, narrow};
use crate::decisions::Decisions;
use crate::gave_up::GaveUp;
use crate::learnt::LearntClauses;
use crate::loading::load;
use crate::log::Log;
use crate::propagation::Propagation;
use crate::reason::{Conflict, Reason};
use crate::restarts::Restarts;
use crate::trail::{Trail, Value};
use crate::trimming::steps_of;
use crate::watches::Watches;
use cnf_form::Formula;
use fv_text::List;
use lrat_check::Step;
use std::alloc::Global;

/// What a round of the search comes to.
#[derive(Debug, Clone, Copy)]
enum Round {
    On,
    Satisfied,
    Refuted,
}

/// A search in a formula.
#[derive(Drop)]
pub(crate) struct Search {
    alloc: Global,
    propagation: Propagation,
    decisions: Decisions,
    analysis: Analysis,
    log: Log,
    learnt: LearntClauses,
    restarts: Restarts,
    stamps: Stamps,
    /// Fixed variables whose unit clauses are wanted.
    wanted: Vec<usize>,
}

impl Search {
    /// In a formula of so many variables and clauses. Fewer clauses are learnt than the budget.
    pub(crate) fn new(
        alloc: Global,
        vars: usize,
        first: u32,
        budget: u64,
    ) -> Result<Search, GaveUp> {
        Ok(Search {
            alloc,
            propagation: Propagation {
                arena: Arena::new(alloc),
                watches: Watches::new(alloc, vars.saturating_mul(2))?,
                trail: Trail::new(alloc, vars)?,
            },
            decisions: Decisions::new(alloc, vars)?,
            analysis: Analysis::new(alloc, vars)?,
            log: Log::new(alloc, first, budget),
            learnt: LearntClauses::new(alloc, first as usize),
            restarts: Restarts::new(),
            stamps: Stamps::new(alloc),
            wanted: Vec::new(alloc),
        })
    }

    /// Searches to the end: whether values were found that may make the formula true.
    pub(crate) fn run(&mut self, formula: &Formula) -> Result<bool, GaveUp> {
        let found = load(
            self.alloc,
            &mut self.propagation,
            &mut self.decisions,
            formula,
        )?;
        if let Some(conflict) = found {
            self.refute(conflict)?;
            return Ok(false);
        }
        self.learnt.set_base(self.propagation.arena.len());
        for _ in 0..u64::MAX {
            match self.round()? {
                Round::On => {}
                Round::Satisfied => return Ok(true),
                Round::Refuted => return Ok(false),
            }
        }
        Err(GaveUp)
    }

    fn round(&mut self) -> Result<Round, GaveUp> {
        match self.propagation.propagate()? {
            None => self.decide(),
            Some(conflict) => {
                if self.propagation.trail.level() == 0 {
                    self.refute(conflict)?;
                    return Ok(Round::Refuted);
                }
                self.learn(conflict)?;
                Ok(Round::On)
            }
        }
    }

    fn decide(&mut self) -> Result<Round, GaveUp> {
        match self.decisions.next(&self.propagation.trail) {
            None => Ok(Round::Satisfied),
            Some(lit) => {
                self.propagation.trail.decide(lit)?;
                Ok(Round::On)
            }
        }
    }

    /// A clause is false with no decision.
    fn refute(&mut self, conflict: Conflict) -> Result<(), GaveUp> {
        self.analysis
            .refute(&self.propagation, &mut self.decisions, conflict)?;
        self.log.add(&[], &self.analysis.hints)?;
        Ok(())
    }

    /// A clause is false behind a decision: another one is learnt.
    fn learn(&mut self, conflict: Conflict) -> Result<(), GaveUp> {
        self.analysis
            .learn(&self.propagation, &mut self.decisions, conflict)?;
        self.settle_all()?;
        self.analysis.put_hints(&self.propagation)?;
        let id = self.log.add(&self.analysis.lits, &self.analysis.hints)?;
        let glue = self
            .analysis
            .glue(&mut self.stamps, &self.propagation.trail)?;
        let level = self.analysis.second_level(&self.propagation.trail);
        self.cut(level)?;
        self.take(id, glue)?;
        self.decisions.decay();
        if self.restarts.is_due() {
            self.begin_anew()?;
        }
        Ok(())
    }

    /// The learnt clause comes in, and forces its first literal.
    fn take(&mut self, id: u32, glue: u32) -> Result<(), GaveUp> {
        let reason = self.propagation.attach(id, &self.analysis.lits)?;
        if let Reason::Long { at } = reason {
            self.learnt.add(at, glue)?;
        }
        if let Some(first) = self.analysis.lits.get(0) {
            if self.propagation.trail.value(*first) == Value::Open {
                self.propagation.trail.push(*first, reason)?;
            }
        }
        Ok(())
    }

    fn begin_anew(&mut self) -> Result<(), GaveUp> {
        self.cut(0)?;
        if self.learnt.is_due() {
            self.learnt.reduce(&mut self.propagation)?;
        }
        Ok(())
    }

    /// Takes back what hangs on a decision above the level.
    fn cut(&mut self, level: u32) -> Result<(), GaveUp> {
        for _ in 0..self.propagation.trail.len() {
            let Some(lit) = self.propagation.trail.pop_above(level) else {
                break;
            };
            self.decisions.release(lit)?;
        }
        self.propagation.trail.end_above(level);
        Ok(())
    }

    /// The values of the fixed variables that the learnt clause hangs on become unit clauses.
    fn settle_all(&mut self) -> Result<(), GaveUp> {
        for place in 0..self.analysis.fixed.len() {
            if let Some(index) = self.analysis.fixed.get(place) {
                self.wanted.push(*index)?;
                self.settle()?;
            }
        }
        Ok(())
    }

    /// The values of the wanted variables become unit clauses, and before them those that they hang on.
    fn settle(&mut self) -> Result<(), GaveUp> {
        for _ in 0..u64::MAX {
            let Some(index) = self.wanted.last() else {
                return Ok(());
            };
            let index = *index;
            let many = self.wanted.len();
            self.want_others(index)?;
            if self.wanted.len() == many {
                self.derive_unit(index)?;
                self.wanted.pop();
            }
        }
        Ok(())
    }

    /// The other variables of the clause that gave the variable its value are wanted, if they have no unit clauses.
    fn want_others(&mut self, index: usize) -> Result<(), GaveUp> {
        let trail = &self.propagation.trail;
        match trail.cause(index).reason {
            Reason::Decision | Reason::Unit { .. } => {}
            Reason::Short { other, .. } => want(&mut self.wanted, trail, index_of(other))?,
            Reason::Long { at } => {
                for lit in self.propagation.arena.lits(at) {
                    if index_of(*lit) != index {
                        want(&mut self.wanted, trail, index_of(*lit))?;
                    }
                }
            }
        }
        Ok(())
    }

    /// The variable's value becomes a unit clause, if it isn't one. Those of the other variables are.
    fn derive_unit(&mut self, index: usize) -> Result<(), GaveUp> {
        let cause = self.propagation.trail.cause(index);
        let mut hints = Vec::new(self.alloc);
        match cause.reason {
            Reason::Decision | Reason::Unit { .. } => return Ok(()),
            Reason::Short { other, .. } => hints.push(self.unit_id(index_of(other)))?,
            Reason::Long { at } => {
                for lit in self.propagation.arena.lits(at) {
                    if index_of(*lit) != index {
                        hints.push(self.unit_id(index_of(*lit)))?;
                    }
                }
            }
        }
        hints.push(self.propagation.id_of(cause.reason))?;
        if let Some(lit) = self.propagation.trail.lit_at(cause.place as usize) {
            let id = self.log.add(&[lit], &hints)?;
            self.propagation
                .trail
                .set_reason(index, Reason::Unit { id });
        }
        Ok(())
    }

    /// The id of the unit clause that says the variable's value.
    fn unit_id(&self, index: usize) -> u32 {
        self.propagation
            .id_of(self.propagation.trail.cause(index).reason)
    }

    /// Whether each of so many variables is true, variable 1 first.
    pub(crate) fn values(&self, vars: usize) -> Result<List<bool>, GaveUp> {
        let mut values = List::new(self.alloc);
        for index in 0..vars {
            let code = narrow(index).saturating_mul(2);
            values.push(self.propagation.trail.value(code) == Value::True)?;
        }
        Ok(values)
    }

    /// The steps that the last derived clause rests on.
    pub(crate) fn steps(&self) -> Result<List<Step>, GaveUp> {
        steps_of(self.alloc, &self.log)
    }
}

/// The variable is wanted, if its value isn't a unit clause.
fn want(wanted: &mut Vec<usize>, trail: &Trail, index: usize) -> Result<(), GaveUp> {
    match trail.cause(index).reason {
        Reason::Unit { .. } => {}
        _ => wanted.push(index)?,
    }
    Ok(())
}
