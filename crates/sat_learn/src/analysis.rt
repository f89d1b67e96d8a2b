ghost use Rattle.std.specs.Prelude.{◌≡◌, ◌<◌, ◌+◌, ◌-◌, ◌^◌, [], ◌∷◌, ◌++◌, true, false, pos, length, reverse};
ghost use Rattle.std.specs.Prelude.{ℤ, neg_ℤ, ◌&&◌, ◌||◌, IfOk, OnOk, MatchBool};
ghost use Rattle.std.specs.Ordering.{int_eq};
ghost use Rattle.lrat_check.specs.Sets.{has, reading, IsLit, AreLits};
ghost use Rattle.sat_trail.specs.Trail.{lits, below, decided, is_decision};
ghost use Rattle.sat_propagate.specs.Watches.{is_other};
ghost use Rattle.sat_propagate.specs.Propagation.{AllLits};
ghost use Rattle.sat_trail.specs.Clauses.{Within};
ghost use Rattle.sat_learn.specs.Analysis.{Derives, Resolves, IsTraced, SameLevel, NewestIsImplied, IsConflict};
ghost use Rattle.sat_learn.specs.Analysis.{is_unit};

use crate::lit_set::LitSet;
use crate::shortening::shorten;
use fv_text::Memory;
use lrat_check::Reading;
use sat_trail::{ClauseList, Entry, Trail};
use std::alloc::Global;

/// A clause that is traced back, with its hints, the last one first: each is one above the place of a clause that it
/// comes from.
#[derive(Drop)]
pub struct Learnt {
    pub lits: Vec<i64>,
    pub hints: Vec<i64>,
}

/// Where the literals of a clause are counted that became false since a decision.
#[derive(Drop)]
struct Tracing {
    /// The ids of the clauses so far, the last hint first.
    hints: Vec<i64>,
    /// How many entries are older than the decision.
    start: usize,
    /// How many literals are counted. It says when to read the clause, and no clause speaks of it.
    late: usize,
}

pub(crate) fn complement(lit: i64) -> i64
    requires { IsLit lit }
    ensures { result ≡ neg_ℤ lit }
{
    -lit
}

pub(crate) fn is_unit(reading: Reading) -> bool
    ensures { result ≡ is_unit reading }
{
    match reading {
        Reading::Unit(_) => true,
        _ => false,
    }
}

fn is_other(taken: Option<i64>, lit: i64) -> bool
    ensures { result ≡ is_other taken lit }
{
    match taken {
        None => true,
        Some(taken) => taken != lit,
    }
}

/// The literal joins the set, unless it is the one that is left out. Whether it is counted.
fn join_one(
    trail: &Trail,
    start: usize,
    set: &mut LitSet,
    skipped: Option<i64>,
    lit: &i64,
) -> Result<bool, Memory>
    requires { IsLit lit.now }
    ensures { OnOk result ((x : ℤ) → has set.new x ≡ (has set.old x || (is_other skipped x && int_eq x lit.now))) }
{
    if !is_other(skipped, *lit) {
        return Ok(false);
    }
    let is_new = set.insert(lit)?;
    Ok(is_new && !trail.is_false_at(start, lit))
}

/// The literals of a clause join the set, but for the one that is left out. How many are counted.
fn join(
    trail: &Trail,
    start: usize,
    set: &mut LitSet,
    skipped: Option<i64>,
    clause: &[i64],
) -> Result<usize, Memory>
    requires { AreLits clause.now }
    ensures { OnOk result ((x : ℤ) → has set.new x ≡ (has set.old x || (is_other skipped x && has clause.now x))) }
{
    let mut late = 0usize;
    for lit in clause {
        if join_one(trail, start, set, skipped, lit)? {
            late = late.saturating_add(1);
        }
    }
    Ok(late)
}

/// The id of the clause at the place, behind the hints.
pub(crate) fn push_id(hints: &mut Vec<i64>, place: usize) -> Result<(), Memory>
    requires { place < 2 ^ 63 - 1 }
    ensures { OnOk result (hints.new.items ≡ hints.old.items ++ pos (place + 1) ∷ []) }
{
    hints.push(place as i64 + 1)?;
    Ok(())
}

/// The set becomes the clause at the place, as it is false on the trail.
fn begin(
    alloc: Global,
    clauses: &ClauseList<'_>,
    trail: &Trail,
    set: &mut LitSet,
    conflict: usize,
) -> Result<Tracing, Memory>
    requires few { length clauses.now < 2 ^ 63 - 1 }
    requires conflict { IsConflict clauses.now trail.now conflict }
    ensures derives { IfOk result (λ t. Derives clauses.now trail.now set.new (reverse t.hints.items)) }
    ensures start { IfOk result (λ t. t.start ≡ length (below trail.now)) }
{
    let start = trail.level_start();
    set.clear();
    let late = join(trail, start, set, None, clauses.at(conflict))?;
    let mut hints = Vec::new(alloc);
    push_id(&mut hints, conflict)?;
    Ok(Tracing { hints, start, late })
}

/// The newest entry, which is taken off the trail, is resolved away.
fn back(
    clauses: &ClauseList<'_>,
    trail: &Trail,
    set: &mut LitSet,
    tracing: &mut Tracing,
    entry: Entry,
) -> Result<(), Memory>
    requires few { length clauses.now < 2 ^ 63 - 1 }
    requires lits { AllLits clauses.now }
    requires derives { Derives clauses.now (entry ∷ trail.now) set.old (reverse tracing.old.hints.items) }
    requires implied { is_decision entry ≡ false }
    ensures derives { OnOk result (Derives clauses.now trail.now set.new (reverse tracing.new.hints.items)) }
    ensures start { tracing.new.start ≡ tracing.old.start }
{
    let lit = complement(entry.lit);
    if !set.has(&lit) {
        return Ok(());
    }
    if let Some(reason) = entry.reason {
        let place = reason as usize;
        set.remove(&lit);
        let more = join(
            trail,
            tracing.start,
            set,
            Some(entry.lit),
            clauses.at(place),
        )?;
        push_id(&mut tracing.hints, place)?;
        tracing.late = tracing.late.saturating_sub(1).saturating_add(more);
    }
    Ok(())
}

/// Whether the newest entry is the first unique implication point: one literal alone of the set is false by the newest
/// decision and what is newer. The set is read only where the count says so.
fn is_done(trail: &Trail, set: &LitSet, tracing: &Tracing) -> bool
    requires start { tracing.now.start ≡ length (below trail.now) }
    requires traced { IsTraced trail.now set.now }
    ensures { MatchBool result (is_unit (reading (lits (below trail.now)) set.now) ≡ true) (NewestIsImplied trail.now) }
{
    match trail.newest() {
        None => false,
        Some(entry) => {
            entry.reason.is_none()
                || (tracing.late <= 1
                    && set.has(&complement(entry.lit))
                    && is_unit(trail.read_from(tracing.start, set.as_slice())))
        }
    }
}

/// Takes entries back to the first unique implication point.
fn trace(
    alloc: Global,
    clauses: &ClauseList<'_>,
    trail: &mut Trail,
    set: &mut LitSet,
    conflict: usize,
) -> Result<Tracing, Memory>
    requires few { length clauses.now < 2 ^ 63 - 1 }
    requires lits { AllLits clauses.now }
    requires decided { decided trail.old ≡ true }
    requires conflict { IsConflict clauses.now trail.old conflict }
    ensures derives { IfOk result (λ t. Derives clauses.now trail.new set.new (reverse t.hints.items)) }
    ensures start { IfOk result (λ t. t.start ≡ length (below trail.new)) }
    ensures level { OnOk result (SameLevel trail.old trail.new) }
    ensures part { OnOk result (Within (lits trail.new) (lits trail.old)) }
    ensures unit { OnOk result (is_unit (reading (lits (below trail.new)) set.new) ≡ true) }
{
    let mut tracing = begin(alloc, clauses, trail, set, conflict)?;
    'walk: while !is_done(trail, set, &tracing) {
        if let Some(entry) = trail.pop() {
            back(clauses, trail, set, &mut tracing, entry)?;
        }
    }
    Ok(tracing)
}

/// Takes entries back to the first unique implication point, and leaves out what the clause's other literals imply.
pub(crate) fn to_unit(
    alloc: Global,
    clauses: &ClauseList<'_>,
    trail: &mut Trail,
    set: &mut LitSet,
    conflict: usize,
) -> Result<Learnt, Memory>
    requires few { length clauses.now < 2 ^ 63 - 1 }
    requires lits { AllLits clauses.now }
    requires decided { decided trail.old ≡ true }
    requires conflict { IsConflict clauses.now trail.old conflict }
    ensures resolves { IfOk result (λ l. Resolves clauses.now trail.new l.lits.items (reverse l.hints.items)) }
    ensures level { OnOk result (SameLevel trail.old trail.new) }
    ensures part { OnOk result (Within (lits trail.new) (lits trail.old)) }
    ensures unit { IfOk result (λ l. is_unit (reading (lits (below trail.new)) l.lits.items) ≡ true) }
{
    let Tracing {
        mut hints,
        start,
        ..
    } = trace(alloc, clauses, trail, set, conflict)?;
    let traced = Vec::from_slice(alloc, set.as_slice())?;
    shorten(clauses, trail, start, set, &mut hints, &traced)?;
    let lits = Vec::from_slice(alloc, set.as_slice())?;
    Ok(Learnt { lits, hints })
}

/// Takes back all entries, none of which is a decision: the clause is empty then.
pub(crate) fn to_empty(
    alloc: Global,
    clauses: &ClauseList<'_>,
    trail: &mut Trail,
    set: &mut LitSet,
    conflict: usize,
) -> Result<Learnt, Memory>
    requires few { length clauses.now < 2 ^ 63 - 1 }
    requires lits { AllLits clauses.now }
    requires undecided { decided trail.old ≡ false }
    requires conflict { IsConflict clauses.now trail.old conflict }
    ensures derives { IfOk result (λ l. Derives clauses.now trail.new l.lits.items (reverse l.hints.items)) }
    ensures empty { IfOk result (λ l. l.lits.items ≡ []) }
{
    let mut tracing = begin(alloc, clauses, trail, set, conflict)?;
    while let Some(entry) = trail.pop() {
        back(clauses, trail, set, &mut tracing, entry)?;
    }
    let lits = Vec::from_slice(alloc, set.as_slice())?;
    Ok(Learnt {
        lits,
        hints: tracing.hints,
    })
}
