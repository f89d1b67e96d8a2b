ghost use Rattle.std.specs.Prelude.{◌≡◌, ◌<◌, ◌+◌, ◌-◌, ◌^◌, List, [], ◌∷◌, ◌++◌, ℤ, true, false, length, reverse};
ghost use Rattle.std.specs.Prelude.{IfOk, IfSome};
ghost use Rattle.lrat_check.specs.Sets.{reading, IsLit, AreLits};
ghost use Rattle.sat_trail.specs.Trail.{lits as true_lits, below, decided, Stand};
ghost use Rattle.sat_propagate.specs.Propagation.{AllLits};
ghost use Rattle.sat_trail.specs.Clauses.{Within};
ghost use Rattle.sat_propagate.specs.Laws.{IsOlder};
ghost use Rattle.sat_learn.specs.Analysis.{IsConflict, FalseLast, is_unit};
ghost use Rattle.sat_learn.specs.Learning.{Learns};

use crate::analysis::{Learnt, to_unit};
use crate::lit_set::LitSet;
use fv_text::Memory;
use sat_trail::{ClauseList, ClauseSet, Trail};
use std::alloc::Global;

/// Of two literals that are false, one that the other doesn't outlast; a literal that isn't false doesn't count.
fn later(trail: &Trail, last: Option<i64>, lit: i64) -> Option<i64>
    requires lit { IsLit lit }
    requires last { IfSome last IsLit }
    ensures lit { IfSome result IsLit }
    ensures later { (clause : List ℤ) → FalseLast trail.now clause last
        → FalseLast trail.now (clause ++ lit ∷ []) result }
{
    if !trail.is_false_at(trail.len(), &lit) {
        return last;
    }
    match last {
        None => Some(lit),
        Some(old) => {
            if trail.outlasts(old, lit) {
                Some(old)
            } else {
                Some(lit)
            }
        }
    }
}

/// The clause's literal that became false last.
fn false_last(trail: &Trail, clause: &[i64]) -> Option<i64>
    requires { AreLits clause.now }
    ensures lit { IfSome result IsLit }
    ensures last { FalseLast trail.now clause.now result }
{
    let mut last = None;
    for lit in clause {
        last = later(trail, last, *lit);
    }
    last
}

/// Whether a clause with one open literal, of whose others this one became false last, still has one below the newest
/// decision.
fn stays_unit(trail: &Trail, last: Option<i64>) -> bool
    requires { IfSome last IsLit }
    ensures { (clause : List ℤ) → is_unit (reading (true_lits trail.now) clause) ≡ true
        → FalseLast trail.now clause last → result ≡ is_unit (reading (true_lits (below trail.now)) clause) }
{
    match last {
        None => true,
        Some(lit) => trail.is_false_at(trail.level_start(), &lit),
    }
}

/// Takes levels off as long as the clause still forces a literal.
fn backjump(clauses: &ClauseList<'_>, trail: &mut Trail, lits: &[i64])
    requires lits { AreLits lits.now }
    requires stand { Stand clauses.now trail.old }
    requires unit { is_unit (reading (true_lits (below trail.old)) lits.now) ≡ true }
    requires decided { decided trail.old ≡ true }
    ensures stand { Stand (clauses.now ++ lits.now ∷ []) trail.new }
    ensures part { Within (true_lits trail.new) (true_lits trail.old) }
    ensures older { IsOlder trail.old trail.new }
{
    trail.drop_level();
    let last = false_last(trail, lits);
    while trail.has_decision() && stays_unit(trail, last) {
        trail.drop_level();
    }
}

/// Takes all levels off.
fn begin_anew(trail: &mut Trail)
    requires { decided trail.old ≡ true }
    ensures undecided { decided trail.new ≡ false }
    ensures stand { (clauses : List (List ℤ)) → Stand clauses trail.old → Stand clauses trail.new }
    ensures part { Within (true_lits trail.new) (true_lits trail.old) }
    ensures older { IsOlder trail.old trail.new }
{
    trail.drop_level();
    while trail.has_decision() {
        trail.drop_level();
    }
}

/// Cuts the trail back to where the clause, which forces a literal below the newest decision, may join the others: as
/// far as it still does, or to the beginning.
fn cut(clauses: &ClauseList<'_>, trail: &mut Trail, lits: &[i64], anew: bool)
    requires lits { AreLits lits.now }
    requires stand { Stand clauses.now trail.old }
    requires unit { is_unit (reading (true_lits (below trail.old)) lits.now) ≡ true }
    requires decided { decided trail.old ≡ true }
    ensures stand { Stand (clauses.now ++ lits.now ∷ []) trail.new }
    ensures part { Within (true_lits trail.new) (true_lits trail.old) }
    ensures older { IsOlder trail.old trail.new }
{
    if anew {
        begin_anew(trail);
        return;
    }
    backjump(clauses, trail, lits);
}

/// Where that is due the search may begin anew behind a clause that is none of the dropped ones.
fn may_begin_anew(dropped: &ClauseSet, lits: &[i64], is_due: bool) -> Result<bool, Memory>
    requires { AreLits lits.now }
{
    if !is_due {
        return Ok(false);
    }
    Ok(!dropped.contains(lits)?)
}

/// Learns a clause from one that is false, and takes the trail back to where it forces a literal, or, where that is due
/// and the clause is none of the dropped ones, to the beginning.
pub(crate) fn learn(
    alloc: Global,
    clauses: &ClauseList<'_>,
    dropped: &ClauseSet,
    trail: &mut Trail,
    set: &mut LitSet,
    conflict: usize,
    is_due: bool,
) -> Result<Learnt, Memory>
    requires few { length clauses.now < 2 ^ 63 - 1 }
    requires lits { AllLits clauses.now }
    requires decided { decided trail.old ≡ true }
    requires conflict { IsConflict clauses.now trail.old conflict }
    ensures { IfOk result (λ l.
        Learns clauses.now l.lits.items (reverse l.hints.items) trail.old trail.new) }
{
    let learnt = to_unit(alloc, clauses, trail, set, conflict)?;
    let anew = may_begin_anew(dropped, &learnt.lits, is_due)?;
    cut(clauses, trail, &learnt.lits, anew);
    Ok(learnt)
}
