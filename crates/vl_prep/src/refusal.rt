//! Refusals, and which of them is answered.

ghost use Rattle.std.specs.Prelude.{◌≡◌};
ghost use Rattle.vl_prep.specs.Refusals as specs;

use crate::fault::PrepFault;
use fv_text::{Pos, Text};

/// Why a text is refused.
#[derive(Debug, Drop)]
pub(crate) enum Cause {
    UnknownMacro(Text),
    UnbalancedIf,
    MacroArgs,
    MacroDepth,
    Include,
    TooManyTokens,
    NoName,
}

/// A refusal with its place, in a macro's text that of the outermost use.
#[derive(Debug, Drop)]
pub(crate) struct Refusal {
    pub place: Pos,
    pub cause: Cause,
}

impl Cause {
    /// The number of the refusal. The lowest is answered of those at one place.
    fn number(&self) -> u32
        ensures { result ≡ specs.number self.now }
    {
        match self {
            Cause::UnknownMacro(_) => 1,
            Cause::UnbalancedIf => 2,
            Cause::MacroArgs => 3,
            Cause::MacroDepth => 4,
            Cause::Include => 5,
            Cause::TooManyTokens => 6,
            Cause::NoName => 7,
        }
    }
}

impl Refusal {
    /// Whether this one is answered where the other is there too.
    pub(crate) fn is_before(&self, other: &Refusal) -> bool
        ensures { result ≡ specs.is_before self.now other.now }
    {
        if self.place == other.place {
            return self.cause.number() < other.cause.number();
        }
        is_sooner(self.place, other.place)
    }

    pub(crate) fn into_fault(self) -> PrepFault
        ensures { result ≡ specs.fault_of self }
    {
        let Refusal { place, cause } = self;
        match cause {
            Cause::UnknownMacro(name) => PrepFault::UnknownMacro(name, place),
            Cause::UnbalancedIf => PrepFault::UnbalancedIf(place),
            Cause::MacroArgs => PrepFault::MacroArgs(place),
            Cause::MacroDepth => PrepFault::MacroDepth(place),
            Cause::Include => PrepFault::Include(place),
            Cause::TooManyTokens => PrepFault::TooManyTokens(place),
            Cause::NoName => PrepFault::NoName(place),
        }
    }
}

/// Whether a place stands before the other, by file, line and column.
pub fn is_sooner(pos: Pos, other: Pos) -> bool
    ensures { result ≡ specs.is_sooner pos other }
{
    if pos.file != other.file {
        return pos.file < other.file;
    }
    if pos.line != other.line {
        return pos.line < other.line;
    }
    pos.col < other.col
}
