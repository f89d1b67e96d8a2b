ghost use Rattle.std.specs.Prelude.{◌≡◌, [], List, ℕ, true, false, IfOk, OnOk, MatchOption};
ghost use Rattle.lrat_check.specs.Store.{Coded, coded, next};
ghost use Rattle.sat_trail.specs.Trail.{true_codes};
ghost use Rattle.sat_propagate.specs.Watching.{is_false_code, lists_of, Watched, Fits, AreFit, Ready, Visits};
ghost use Rattle.sat_propagate.specs.Watching.{KeepsCalm};
ghost use Rattle.sat_propagate.specs.Watching.{KeepsFit, SameHeld, Going, IsFalse, Forces, Stops};

use crate::lists::Lists;
use crate::look::{Sight, look};
use crate::watch::{Watch, watch_of};
use fv_text::Memory;
use lrat_check::Store;
use sat_trail::Trail;

/// What a watch of a literal that became false comes to.
#[derive(Debug, Clone, Copy)]
pub(crate) enum Visit {
    /// The clause has a true literal, or is watched elsewhere.
    Passed,
    /// The literal with this code alone is open.
    Unit(u64),
    /// All literals are false.
    Conflict,
}

/// A clause that is false, or forces the literal with a code.
#[derive(Debug, Clone, Copy)]
pub(crate) struct Stop {
    pub id: u64,
    pub forced: Option<u64>,
}

/// Deals with a watch of the literal with the code, which became false.
pub(crate) fn visit_watch(
    store: &mut Store,
    lists: &mut Lists,
    trail: &Trail,
    code: u64,
    watch: Watch,
) -> Result<Visit, Memory>
    requires ready { Ready (coded store.old) (next store.old) (lists_of lists.old) }
    requires code { is_false_code (true_codes trail.now) code ≡ true }
    requires fits { Fits (coded store.old) (next store.old) watch }
    ensures visits { IfOk result (λ v. Visits (coded store.old) (coded store.new) (lists_of lists.old)
        (lists_of lists.new) (true_codes trail.now) code watch v) }
    ensures ready { OnOk result (Ready (coded store.new) (next store.old) (lists_of lists.new)) }
    ensures fit { OnOk result (KeepsFit (coded store.old) (coded store.new) (next store.old)) }
    ensures same { OnOk result (SameHeld (coded store.old) (coded store.new)) }
    ensures next { OnOk result (next store.new ≡ next store.old) }
    ensures calm { OnOk result (KeepsCalm (coded store.old) (coded store.new) (lists_of lists.old)
        (true_codes trail.now) code watch) }
{
    let id = watch.id as u64;
    if trail.is_true(watch.blocker as u64) {
        lists.push(code, watch)?;
        return Ok(Visit::Passed);
    }
    let sight = match store.lits(id) {
        None => return Ok(Visit::Passed),
        Some(clause) => look(clause, code, trail),
    };
    match sight {
        Sight::Stale => Ok(Visit::Passed),
        Sight::True(other) => {
            let kept = watch_of(id, other)?;
            lists.push(code, kept)?;
            Ok(Visit::Passed)
        }
        Sight::Move {
            place,
            k,
            next,
            other,
        } => {
            let moved = watch_of(id, other)?;
            store.exchange(id, place, k);
            lists.push(next, moved)?;
            Ok(Visit::Passed)
        }
        Sight::Last(other) => Ok(Visit::Unit(other)),
        Sight::False => Ok(Visit::Conflict),
    }
}

/// Goes through the watches of the literal with the code, which became false, the last first, up to one whose clause is
/// false or forces a literal.
pub(crate) fn visit_list(
    store: &mut Store,
    lists: &mut Lists,
    rest: &mut Vec<Watch>,
    trail: &Trail,
    code: u64,
) -> Result<Option<Stop>, Memory>
    requires ready { Ready (coded store.old) (next store.old) (lists_of lists.old) }
    requires code { is_false_code (true_codes trail.now) code ≡ true }
    requires fit { AreFit (coded store.old) (next store.old) rest.old.items }
    ensures ready { OnOk result (Ready (coded store.new) (next store.old) (lists_of lists.new)) }
    ensures fit { OnOk result (AreFit (coded store.new) (next store.old) rest.new.items) }
    ensures same { OnOk result (SameHeld (coded store.old) (coded store.new)) }
    ensures next { OnOk result (next store.new ≡ next store.old) }
    ensures going { OnOk result (Going (coded store.old) (coded store.new) (lists_of lists.old) (lists_of lists.new)
        (true_codes trail.now) code rest.old.items rest.new.items) }
    ensures found { IfOk result (λ found. MatchOption found (rest.new.items ≡ [])
        (λ stop. Stops (coded store.new) (true_codes trail.now) stop.id stop.forced)) }
{
    while let Some(watch) = rest.pop() {
        match visit_watch(store, lists, trail, code, watch)? {
            Visit::Passed => {}
            Visit::Unit(forced) => {
                // The literal is true when the watch is looked at again.
                let forcing = watch_of(watch.id as u64, forced)?;
                rest.push(forcing)?;
                return Ok(Some(Stop {
                    id: watch.id as u64,
                    forced: Some(forced),
                }));
            }
            Visit::Conflict => {
                rest.push(watch)?;
                return Ok(Some(Stop {
                    id: watch.id as u64,
                    forced: None,
                }));
            }
        }
    }
    Ok(None)
}
