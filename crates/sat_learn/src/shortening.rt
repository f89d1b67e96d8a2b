ghost use Rattle.std.specs.Prelude.{◌≡◌, ◌<◌, ◌-◌, ◌^◌, [], true, length, slice_index_or, reverse, OnOk, IfSome};
ghost use Rattle.std.specs.List.{list_any};
ghost use Rattle.lrat_check.specs.Sets.{has, is_false, reading, IsLit, AreLits};
ghost use Rattle.sat_trail.specs.Trail.{lits, below};
ghost use Rattle.sat_propagate.specs.Propagation.{AllLits};
ghost use Rattle.sat_learn.specs.Analysis.{Resolves, is_stray, implies, is_unit};

use crate::analysis::{complement, push_id};
use crate::lit_set::LitSet;
use fv_text::Memory;
use sat_trail::{ClauseList, Trail};

fn has(lits: &[i64], wanted: &i64) -> bool
    ensures { result ≡ has lits.now wanted.now }
{
    for lit in lits {
        if wanted == lit {
            return true;
        }
    }
    false
}

fn is_stray(set: &LitSet, forced: &i64, dropped: &i64, lit: &i64) -> bool
    requires { IsLit lit.now }
    ensures { result ≡ is_stray set.now forced.now dropped.now lit.now }
{
    forced != lit && (dropped == lit || !set.has(lit))
}

fn any_stray(set: &LitSet, forced: &i64, dropped: &i64, clause: &[i64]) -> bool
    requires { AreLits clause.now }
    ensures { result ≡ list_any (is_stray set.now forced.now dropped.now) clause.now }
{
    for lit in clause {
        if is_stray(set, forced, dropped, lit) {
            return true;
        }
    }
    false
}

/// Whether the clause forces the literal where the set's literals but for the dropped one are false.
fn implies(set: &LitSet, forced: &i64, dropped: &i64, clause: &[i64]) -> bool
    requires { AreLits clause.now }
    ensures { result ≡ implies set.now forced.now dropped.now clause.now }
{
    has(clause, forced) && !any_stray(set, forced, dropped, clause)
}

/// The place of a clause that forces the literal, which is true on the trail, where the set's literals but for the
/// dropped one are false.
fn implied_at(
    clauses: &ClauseList<'_>,
    trail: &Trail,
    set: &LitSet,
    forced: &i64,
    dropped: &i64,
) -> Option<usize>
    requires clauses { AllLits clauses.now }
    requires forced { IsLit forced.now }
    ensures { IfSome result (λ place. (place < length clauses.now)
        × (implies set.now forced.now dropped.now (slice_index_or clauses.now place []) ≡ true)) }
{
    let place = trail.reason(forced)?;
    if place < clauses.len() && implies(set, forced, dropped, clauses.at(place)) {
        Some(place)
    } else {
        None
    }
}

/// Whether the literal is false by what is older than the newest decision, so many entries.
fn is_early(trail: &Trail, start: usize, lit: &i64) -> bool
    requires lit { IsLit lit.now }
    requires start { start ≡ length (below trail.now) }
    ensures { result ≡ is_false (lits (below trail.now)) lit.now }
{
    trail.is_false_at(start, lit)
}

/// Leaves the literal out, if it is false below the newest decision, so many entries being older, and the others imply
/// its complement.
fn drop_implied(
    clauses: &ClauseList<'_>,
    trail: &Trail,
    start: usize,
    set: &mut LitSet,
    hints: &mut Vec<i64>,
    lit: &i64,
) -> Result<(), Memory>
    requires few { length clauses.now < 2 ^ 63 - 1 }
    requires clauses { AllLits clauses.now }
    requires lit { IsLit lit.now }
    requires start { start ≡ length (below trail.now) }
    requires resolves { Resolves clauses.now trail.now set.old (reverse hints.old.items) }
    requires unit { is_unit (reading (lits (below trail.now)) set.old) ≡ true }
    ensures resolves { OnOk result (Resolves clauses.now trail.now set.new (reverse hints.new.items)) }
    ensures unit { OnOk result (is_unit (reading (lits (below trail.now)) set.new) ≡ true) }
{
    if !set.has(lit) || !is_early(trail, start, lit) {
        return Ok(());
    }
    let forced = complement(*lit);
    if let Some(place) = implied_at(clauses, trail, set, &forced, lit) {
        set.remove(lit);
        push_id(hints, place)?;
    }
    Ok(())
}

/// Leaves out the literals that the others imply, each of these literals looked at once.
pub(crate) fn shorten(
    clauses: &ClauseList<'_>,
    trail: &Trail,
    start: usize,
    set: &mut LitSet,
    hints: &mut Vec<i64>,
    literals: &[i64],
) -> Result<(), Memory>
    requires few { length clauses.now < 2 ^ 63 - 1 }
    requires clauses { AllLits clauses.now }
    requires literals { AreLits literals.now }
    requires start { start ≡ length (below trail.now) }
    requires resolves { Resolves clauses.now trail.now set.old (reverse hints.old.items) }
    requires unit { is_unit (reading (lits (below trail.now)) set.old) ≡ true }
    ensures resolves { OnOk result (Resolves clauses.now trail.now set.new (reverse hints.new.items)) }
    ensures unit { OnOk result (is_unit (reading (lits (below trail.now)) set.new) ≡ true) }
{
    for lit in literals {
        drop_implied(clauses, trail, start, set, hints, lit)?;
    }
    Ok(())
}
