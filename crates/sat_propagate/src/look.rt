ghost use Rattle.std.specs.Prelude.{◌≡◌, ◌<◌, ◌-◌, length, true, MatchOption};
ghost use Rattle.lrat_check.specs.Codes.{lits_of};
ghost use Rattle.lrat_check.specs.Sets.{AreLits};
ghost use Rattle.sat_trail.specs.Trail.{true_codes};
ghost use Rattle.sat_propagate.specs.Watching.{is_false_code, at_place, NoneFrom, Free, Looks};

use sat_trail::Trail;

/// What becomes of a clause as a watched literal becomes false. Literals are codes.
#[derive(Debug, Clone, Copy)]
pub(crate) enum Sight {
    /// It isn't watched there.
    Stale,
    /// This literal is true.
    True(u64),
    /// The watch goes from the place to the place `k`, at which there is `next`; the other watched literal.
    Move {
        place: usize,
        k: usize,
        next: u64,
        other: u64,
    },
    /// This literal alone is open.
    Last(u64),
    /// All literals are false.
    False,
}

/// Looks at a clause in which the literal with the code, which became false, may be watched.
pub(crate) fn look(clause: &[u64], code: u64, trail: &Trail) -> Sight
    requires long { 1 < length clause.now }
    requires lits { AreLits (lits_of clause.now) }
    requires code { is_false_code (true_codes trail.now) code ≡ true }
    ensures { Looks (true_codes trail.now) clause.now code result }
{
    if clause[1] == code {
        look_at(clause, 1, clause[0], trail)
    } else if clause[0] == code {
        look_at(clause, 0, clause[1], trail)
    } else {
        Sight::Stale
    }
}

fn look_at(clause: &[u64], place: usize, other: u64, trail: &Trail) -> Sight
    requires long { 1 < length clause.now }
    requires low { place < 2 }
    requires other { other ≡ at_place clause.now (1 - place) }
    requires lits { AreLits (lits_of clause.now) }
    requires code { is_false_code (true_codes trail.now) (at_place clause.now place) ≡ true }
    ensures { Looks (true_codes trail.now) clause.now (at_place clause.now place) result }
{
    if trail.is_true(other) {
        return Sight::True(other);
    }
    match find(clause, other, trail) {
        Some(k) => Sight::Move {
            place,
            k,
            next: clause[k],
            other,
        },
        None => {
            if trail.is_false(other) {
                Sight::False
            } else {
                Sight::Last(other)
            }
        }
    }
}

/// The place of a literal that isn't watched, nor false, nor the other watched one.
fn find(clause: &[u64], other: u64, trail: &Trail) -> Option<usize>
    requires { AreLits (lits_of clause.now) }
    ensures { MatchOption result (NoneFrom (true_codes trail.now) clause.now other (length clause.now))
        (λ k. Free (true_codes trail.now) clause.now other k) }
{
    for k in 2..clause.len() {
        let code = clause[k];
        if code != other && !trail.is_false(code) {
            return Some(k);
        }
    }
    None
}
