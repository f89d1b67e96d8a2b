//! Where reading stands within the brackets around an operator.

use fv_text::Token;
use vl_parse_cursor::Stop;

#[derive(Clone, Copy)]
pub(crate) enum Stand {
    Plain,
    /// The first expression in braces, which may turn out to be the count of a replication.
    FirstInBraces,
}

/// The brackets around an expression.
#[derive(Clone, Copy)]
pub(crate) struct Level {
    pub stand: Stand,
    /// How many constructs may open in these brackets.
    pub room: u32,
    /// How many colons of conditionals are to come.
    pub colons: u32,
}

impl Level {
    ghost use Rattle.std.specs.Prelude.{◌≡◌, ◌+◌, ◌<◌, ◌≤◌, ◌^◌, Err, length, IfOk, IfErr};
    ghost use Rattle.vl_parse_grammar.specs.Machine.{deep};
    ghost use Rattle.vl_parse_cursor.specs.Goes.{Means};

    pub(crate) fn new(stand: Stand, room: u32) -> Level
        ensures stand { result.stand ≡ stand }
        ensures room { result.room ≡ room }
        ensures colons { result.colons ≡ 0 }
    {
        Level {
            stand,
            room,
            colons: 0,
        }
    }

    /// With one colon more to come.
    pub(crate) fn with_colon(self) -> Level
        requires { self.colons + 1 < 2 ^ 32 }
        ensures stand { result.stand ≡ self.stand }
        ensures room { result.room ≡ self.room }
        ensures colons { result.colons ≡ self.colons + 1 }
    {
        Level {
            stand: self.stand,
            room: self.room,
            colons: self.colons + 1,
        }
    }

    /// How many operators are open from the first token on, where that is one.
    pub(crate) fn count_operator(self, opened: u32, tokens: &[Token]) -> Result<u32, Stop>
        requires { opened ≤ self.room }
        ensures some { IfOk result (λ _. opened < self.room) }
        ensures counted { IfOk result (λ now. now ≡ opened + 1) }
        ensures none { IfErr result (λ _. opened ≡ self.room) }
        ensures deep { IfErr result (λ e. Means e (Err (deep (length tokens.now)))) }
    {
        if opened >= self.room {
            return Err(Stop::TooDeep(tokens.len()));
        }
        Ok(opened + 1)
    }
}
