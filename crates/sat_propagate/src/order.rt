ghost use Rattle.std.specs.Prelude.{◌≡◌, ◌+◌, ◌<◌, true, ℤ, length, MatchBool};
ghost use Rattle.lrat_check.specs.Sets.{has, AreLits};
ghost use Rattle.sat_trail.specs.Trail.{Outlasts};
ghost use Rattle.sat_propagate.specs.Watches.{is_other, lit_at, Latest, Leads, OneAlone, SameLits};

use sat_trail::Trail;

/// Brings the two literals that are watched to the front: those that are open, or became false last. Whether there are
/// two different ones.
pub(crate) fn order(lits: &mut Vec<i64>, trail: &Trail) -> bool
    requires { AreLits lits.old.items }
    ensures same { SameLits lits.old.items lits.new.items }
    ensures lits { AreLits lits.new.items }
    ensures found { MatchBool result (Leads trail.now lits.new.items) (OneAlone lits.old.items) }
{
    match latest(lits.as_slice(), trail, None) {
        None => false,
        Some(first) => {
            lits.swap(0, first);
            bring_second(lits, trail)
        }
    }
}

/// Brings the second one behind the first, which no other one outlasts.
fn bring_second(lits: &mut Vec<i64>, trail: &Trail) -> bool
    requires lits { AreLits lits.old.items }
    requires some { 0 < length lits.old.items }
    requires first { (x : ℤ) → has lits.old.items x ≡ true → Outlasts trail.now (lit_at lits.old.items 0) x }
    ensures same { SameLits lits.old.items lits.new.items }
    ensures lits { AreLits lits.new.items }
    ensures found { MatchBool result (Leads trail.now lits.new.items) (OneAlone lits.old.items) }
{
    let first = lits[0];
    match latest(lits.as_slice(), trail, Some(first)) {
        None => false,
        Some(second) => {
            lits.swap(1, second);
            true
        }
    }
}

/// The place of a literal, other than the one that is taken, which no other one outlasts.
fn latest(lits: &[i64], trail: &Trail, taken: Option<i64>) -> Option<usize>
    requires { AreLits lits.now }
    ensures { Latest trail.now lits.now taken (length lits.now) result }
{
    let mut best = None;
    for place in 0..lits.len() {
        best = later(lits, trail, taken, best, place);
    }
    best
}

/// The same where one place more is looked at.
fn later(
    lits: &[i64],
    trail: &Trail,
    taken: Option<i64>,
    best: Option<usize>,
    place: usize,
) -> Option<usize>
    requires lits { AreLits lits.now }
    requires within { place < length lits.now }
    requires best { Latest trail.now lits.now taken place best }
    ensures { Latest trail.now lits.now taken (place + 1) result }
{
    if !is_other(taken, lits[place]) {
        return best;
    }
    match best {
        None => Some(place),
        Some(old) => {
            if trail.outlasts(lits[old], lits[place]) {
                Some(old)
            } else {
                Some(place)
            }
        }
    }
}

fn is_other(taken: Option<i64>, lit: i64) -> bool
    ensures { result ≡ is_other taken lit }
{
    match taken {
        None => true,
        Some(taken) => taken != lit,
    }
}
