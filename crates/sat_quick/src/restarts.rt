/// How many conflicts the first terms of the sequence stand for.
const CONFLICTS: u64 = 100;

/// When the search begins anew: after as many conflicts as Luby's sequence 1, 1, 2, 1, 1, 2, 4, .. says, times a
/// hundred (Luby, Sinclair and Zuckerman: Optimal Speedup of Las Vegas Algorithms).
///
/// No clause says so: a search may begin anew after any conflict.
#[derive(Debug, Drop)]
pub struct Restarts {
    /// How many conflicts are left.
    left: u64,
    /// Knuth's pair, whose second number goes through the sequence.
    turn: u64,
    term: u64,
}

impl Restarts {
    /// Before the first conflict.
    pub fn new() -> Restarts {
        Restarts {
            left: CONFLICTS,
            turn: 1,
            term: 1,
        }
    }

    /// A conflict is over: whether to begin anew.
    pub fn is_due(&mut self) -> bool {
        if self.left > 1 {
            self.left -= 1;
            return false;
        }
        if self.turn & self.turn.wrapping_neg() == self.term {
            self.turn = self.turn.saturating_add(1);
            self.term = 1;
        } else {
            self.term = self.term.saturating_mul(2);
        }
        self.left = self.term.saturating_mul(CONFLICTS);
        true
    }
}
