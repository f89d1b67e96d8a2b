ghost use Rattle.std.specs.Prelude.{◌≡◌, ◌↔◌, true, IfOk, IsTrue};
ghost use Rattle.fv_text.specs.Named.{is_well_named};

use crate::kind::Kind;
use crate::memory::Memory;
use crate::pos::Pos;
use std::alloc::Global;

/// A token of a Verilog text, with the place of its first byte.
#[derive(Debug, Drop)]
pub struct Token {
    pub kind: Kind,
    pub pos: Pos,
    /// The text of a name is a name.
    pub ghost named: { is_well_named kind ≡ true },
}

impl Token {
    pub fn copied(&self, alloc: Global) -> Result<Token, Memory>
        ensures { IfOk result (λ token. token ≡ self.now) }
    {
        Ok(Token {
            kind: self.kind.copied(alloc)?,
            pos: self.pos,
        })
    }

    /// Whether both are of one kind and at one place.
    pub fn is(&self, other: &Token) -> bool
        ensures { IsTrue result ↔ (self.now ≡ other.now) }
    {
        self.kind.is(&other.kind) && self.pos == other.pos
    }
}
