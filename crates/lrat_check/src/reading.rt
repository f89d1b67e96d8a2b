ghost use Rattle.std.specs.Prelude.{◌≡◌};
ghost use Rattle.lrat_check.specs.Codes.{lits_of};
ghost use Rattle.lrat_check.specs.Sets.{reading, with_open, AreLits};

use crate::code::lit_of;
use crate::true_set::TrueSet;

/// How a clause reads under a set of true literals.
#[derive(Debug, Clone, Copy)]
pub enum Reading {
    /// A literal is true.
    True,
    /// All literals are false.
    False,
    /// This literal alone is open.
    Unit(i64),
    /// Two different literals are open.
    Open,
}

impl Reading {
    /// How it reads with one open literal more.
    fn with_open(self, lit: i64) -> Reading
        ensures { result ≡ with_open lit self }
    {
        match self {
            Reading::True => Reading::True,
            Reading::False => Reading::Unit(lit),
            Reading::Unit(first) if lit == first => Reading::Unit(first),
            Reading::Unit(_) | Reading::Open => Reading::Open,
        }
    }
}

/// How the clause with these codes reads.
pub(crate) fn read(set: &TrueSet, codes: &[u64]) -> Reading
    requires { AreLits (lits_of codes.now) }
    ensures { result ≡ reading set.now (lits_of codes.now) }
{
    let mut reading = Reading::False;
    for code in codes {
        if set.has(*code) {
            return Reading::True;
        }
        if !set.is_false(*code) {
            reading = reading.with_open(lit_of(*code));
        }
    }
    reading
}
