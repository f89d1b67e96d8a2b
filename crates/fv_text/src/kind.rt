ghost use Rattle.std.specs.Prelude.{◌≡◌, ◌↔◌, IfOk, IsTrue};

use crate::keyword::Keyword;
use crate::memory::Memory;
use crate::number::Number;
use crate::symbol::Symbol;
use crate::text::Text;
use std::alloc::Global;

/// What a token of a Verilog text is (IEEE 1364-2005, clause 3).
#[derive(Debug, Drop)]
pub enum Kind {
    Name(Text),
    Keyword(Keyword),
    Symbol(Symbol),
    Number(Number),
    /// A system name, without its `$`.
    System(Text),
    /// A compiler directive or the use of a macro, without its backquote.
    Tick(Text),
    /// A string.
    Quoted,
    /// A backslash directly before the line's end.
    Continue,
}

impl Kind {
    pub fn copied(&self, alloc: Global) -> Result<Kind, Memory>
        ensures { IfOk result (λ kind. kind ≡ self.now) }
    {
        Ok(match self {
            Kind::Name(text) => Kind::Name(text.copied(alloc)?),
            Kind::Keyword(keyword) => Kind::Keyword(*keyword),
            Kind::Symbol(symbol) => Kind::Symbol(*symbol),
            Kind::Number(number) => Kind::Number(*number),
            Kind::System(text) => Kind::System(text.copied(alloc)?),
            Kind::Tick(text) => Kind::Tick(text.copied(alloc)?),
            Kind::Quoted => Kind::Quoted,
            Kind::Continue => Kind::Continue,
        })
    }

    pub fn is(&self, other: &Kind) -> bool
        ensures { IsTrue result ↔ (self.now ≡ other.now) }
    {
        match self {
            Kind::Name(text) => matches!(other, Kind::Name(name) if text.is(name.bytes())),
            Kind::Keyword(keyword) => other.is_keyword(*keyword),
            Kind::Symbol(symbol) => other.is_symbol(*symbol),
            Kind::Number(number) => matches!(other, Kind::Number(same) if number.is(same)),
            Kind::System(text) => matches!(other, Kind::System(name) if text.is(name.bytes())),
            Kind::Tick(text) => matches!(other, Kind::Tick(name) if text.is(name.bytes())),
            Kind::Quoted => matches!(other, Kind::Quoted),
            Kind::Continue => matches!(other, Kind::Continue),
        }
    }

    pub fn is_keyword(&self, keyword: Keyword) -> bool
        ensures { IsTrue result ↔ (self.now ≡ Kind.Keyword keyword) }
    {
        match self {
            Kind::Keyword(found) => found.is(keyword),
            _ => false,
        }
    }

    pub fn is_symbol(&self, symbol: Symbol) -> bool
        ensures { IsTrue result ↔ (self.now ≡ Kind.Symbol symbol) }
    {
        match self {
            Kind::Symbol(found) => found.is(symbol),
            _ => false,
        }
    }
}
