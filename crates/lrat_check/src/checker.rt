ghost use Rattle.std.specs.Prelude.{◌≡◌, ◌≤◌, ◌+◌, ℕ, ◌++◌, Bool, false, length, IfOk, OnOk};
ghost use Rattle.std.specs.List.{list_any};
ghost use Rattle.cnf_form.specs.Cnf.{formula_true};
ghost use Rattle.lrat_check.specs.Sets.{negs, AreLits};
ghost use Rattle.lrat_check.specs.Steps.{is_negative, walk, add_fault, judged, IsStep, AreSteps};
ghost use Rattle.lrat_check.specs.Answers.{Answers, Judges, Takes, Adds};
ghost use Rattle.lrat_check.specs.Store.{held_of, next, AreHeld, OnlyMemory};

use crate::held::{delete, put, store_of};
use crate::reading::{Reading, read};
use crate::step::{Refuted, Step, StepFault};
use crate::store::Store;
use crate::true_set::TrueSet;
use cnf_form::Formula;
use std::alloc::Global;

/// What the checker keeps between two steps.
#[derive(Drop)]
struct Checker {
    held: Store,
    /// The highest id that was added.
    top: u64,
    set: TrueSet,
}

/// Whether the steps refute the formula: the id of the first empty clause. The steps behind it aren't looked at.
pub fn verify(alloc: Global, formula: &Formula, steps: &[Step]) -> Result<Refuted, StepFault>
    requires { AreSteps steps.now }
    ensures answers { Answers result (judged formula.now.clauses steps.now) }
    ensures sound { IfOk result (λ refuted. (values : ℕ → Bool)
        → formula_true values formula.now.clauses ≡ false) }
{
    let mut checker = Checker {
        held: store_of(alloc, formula)?,
        top: formula.len() as u64,
        set: TrueSet::new(alloc),
    };
    for step in steps {
        match checker.take(step) {
            Err(fault) => return Err(fault),
            Ok(Some(refuted)) => return Ok(refuted),
            Ok(None) => {}
        }
    }
    Err(StepFault::NoEmpty)
}

impl Checker {
    fn take(&mut self, step: &Step) -> Result<Option<Refuted>, StepFault>
        requires held { AreHeld (held_of self.old.held) }
        requires top { next self.old.held ≤ self.old.top + 1 }
        requires step { IsStep step.now }
        ensures takes { Takes (held_of self.old.held) self.old.top
            (held_of self.new.held) self.new.top step.now result }
        ensures held { OnOk result (AreHeld (held_of self.new.held)) }
        ensures top { OnOk result (next self.new.held ≤ self.new.top + 1) }
    {
        match step {
            Step::Add { id, lits, hints } => self.add(*id, lits.as_slice(), hints.as_slice()),
            Step::Delete { id, ids } => {
                delete(&mut self.held, *id, ids.as_slice())?;
                Ok(None)
            }
        }
    }

    fn add(&mut self, id: u64, lits: &[i64], hints: &[i64]) -> Result<Option<Refuted>, StepFault>
        requires held { AreHeld (held_of self.old.held) }
        requires top { next self.old.held ≤ self.old.top + 1 }
        requires lits { AreLits lits.now }
        ensures takes { Adds (held_of self.old.held) self.old.top
            (held_of self.new.held) self.new.top id lits.now hints.now result }
        ensures held { OnOk result (AreHeld (held_of self.new.held)) }
        ensures top { OnOk result (next self.new.held ≤ self.new.top + 1) }
    {
        self.judge(id, lits, hints)?;
        if lits.is_empty() {
            return Ok(Some(Refuted { id }));
        }
        put(&mut self.held, id, lits)?;
        self.top = id;
        Ok(None)
    }

    fn judge(&mut self, id: u64, lits: &[i64], hints: &[i64]) -> Result<(), StepFault>
        requires held { AreHeld (held_of self.old.held) }
        requires lits { AreLits lits.now }
        ensures judges { Judges result (add_fault (held_of self.old.held) self.old.top id lits.now hints.now) }
        ensures held { self.new.held ≡ self.old.held }
        ensures top { self.new.top ≡ self.old.top }
    {
        if id <= self.top {
            return Err(StepFault::IdOrder { id });
        }
        if any_negative(hints) {
            return Err(StepFault::Rat { id });
        }
        self.set.clear();
        assume_false(&mut self.set, lits)?;
        propagate(&self.held, id, &mut self.set, hints)
    }
}

/// Makes the literals false.
fn assume_false(set: &mut TrueSet, lits: &[i64]) -> Result<(), StepFault>
    requires { AreLits lits.now }
    ensures ok { OnOk result (set.new ≡ set.old ++ negs lits.now) }
    ensures memory { OnlyMemory result }
{
    for lit in lits {
        set.add(-*lit)?;
    }
    Ok(())
}

fn any_negative(hints: &[i64]) -> bool
    ensures { result ≡ list_any is_negative hints.now }
{
    for hint in hints {
        if *hint < 0 {
            return true;
        }
    }
    false
}

/// Unit propagation along the hints of the step `id`, up to a clause that is false.
fn propagate(held: &Store, id: u64, set: &mut TrueSet, hints: &[i64]) -> Result<(), StepFault>
    requires { AreHeld (held_of held.now) }
    ensures { Judges result (walk (held_of held.now) id set.old hints.now) }
{
    for hint in hints {
        match held.lits(hint.unsigned_abs()) {
            None => return Err(no_clause(id, hint)),
            Some(codes) => match read(set, codes) {
                Reading::True => {}
                Reading::False => return Ok(()),
                Reading::Unit(lit) => set.add(lit)?,
                Reading::Open => return Err(not_unit(id, hint)),
            },
        }
    }
    Err(StepFault::NoConflict { id })
}

fn no_clause(id: u64, hint: &i64) -> StepFault
    ensures { result ≡ StepFault.NoClause id hint.now }
{
    StepFault::NoClause {
        id,
        hint: i128::from(*hint),
    }
}

fn not_unit(id: u64, hint: &i64) -> StepFault
    ensures { result ≡ StepFault.NotUnit id hint.now }
{
    StepFault::NotUnit {
        id,
        hint: i128::from(*hint),
    }
}
