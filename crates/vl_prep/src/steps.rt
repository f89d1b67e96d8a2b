//! What changes the macros, what is put out, and which refusal is answered.

ghost use Rattle.std.specs.Prelude.{◌≡◌, [], None, Some, true, false, ◌&&◌, ◌<◌, IfOk, OnOk};
ghost use Rattle.vl_prep.specs.Macros.{held};
ghost use Rattle.vl_prep.specs.Prep as prep;
ghost use Rattle.vl_prep.specs.Quiet.{IsEmpty};
ghost use Rattle.vl_prep.specs.Stands.{done_of, IsUse, IsQuietUse, KeepsFresh, OnOkFresh};

use crate::macros::Macros;
use crate::prepared::Prepared;
use crate::quiet::Quiet;
use crate::refusal::{Cause, Refusal};
use fv_text::{List, Memory, Pos, Text, Token};
use std::alloc::Global;
use std::sync::Arc;

const MOST_TOKENS: usize = 2_000_000;

/// What there is to be read for the use of a macro.
pub(crate) enum Use {
    Text(Arc<List<Token>>),
    /// No macro has the name.
    Unknown,
    /// Too many uses stand within one another.
    TooDeep,
    /// It is known to change nothing.
    Quiet,
}

impl Prepared {
    pub(crate) fn new(alloc: Global, macros: Macros) -> Prepared
        ensures { done_of result ≡ prep.at_first (held macros) }
    {
        Prepared {
            alloc,
            macros,
            output: List::new(alloc),
            refusal: None,
            quiet: Quiet::new(alloc),
            fresh: true,
        }
    }

    /// A refusal is met.
    pub(crate) fn refuse(&mut self, place: Pos, cause: Cause)
        ensures refused { done_of self.new ≡ prep.refused place cause (done_of self.old) }
        ensures fresh { KeepsFresh self.old self.new }
    {
        let refusal = Refusal { place, cause };
        let is_least = match &self.refusal {
            Some(least) => refusal.is_before(least),
            None => true,
        };
        if is_least {
            self.change();
            self.refusal = Some(refusal);
        }
    }

    /// Puts a token out, at this place. One past the limit is dropped.
    pub(crate) fn put(&mut self, token: &Token, pos: Pos) -> Result<(), Memory>
        ensures put { OnOk result (done_of self.new ≡ prep.put (done_of self.old) (prep.moved token.now pos)) }
        ensures fresh { OnOkFresh result self.old self.new }
    {
        if self.output.len() >= MOST_TOKENS {
            self.refuse(pos, Cause::TooManyTokens);
            return Ok(());
        }
        self.change();
        let token = moved(self.alloc, token, pos)?;
        self.output.push(token)
    }

    /// Defines a macro. The text that it already has changes nothing.
    pub(crate) fn define(&mut self, name: Text, text: List<Token>) -> Result<(), Memory>
        ensures defined { OnOk result (done_of self.new ≡ prep.redefined name (Some text) (done_of self.old)) }
        ensures fresh { OnOkFresh result self.old self.new }
    {
        if self.macros.has_text(name.bytes(), text.as_slice()) {
            return Ok(());
        }
        self.change();
        self.macros.set(name, text.into_vec())
    }

    /// Takes the definition of a macro back, if there is one.
    pub(crate) fn undefine(&mut self, name: &Text) -> Result<(), Memory>
        ensures undefined { OnOk result (done_of self.new ≡ prep.redefined name.now None (done_of self.old)) }
        ensures fresh { OnOkFresh result self.old self.new }
    {
        if !self.macros.is_defined(name.bytes()) {
            return Ok(());
        }
        self.change();
        self.macros.unset(name)
    }

    fn change(&mut self)
        ensures macros { self.new.macros ≡ self.old.macros }
        ensures output { self.new.output ≡ self.old.output }
        ensures refusal { self.new.refusal ≡ self.old.refusal }
        ensures changed { self.new.fresh ≡ false }
        ensures empty { IsEmpty self.new.quiet }
    {
        self.fresh = false;
        self.quiet = Quiet::new(self.alloc);
    }

    /// What there is to be read for a use of the macro.
    pub(crate) fn text_at_use(&self, name: &[u8], place: Pos, levels: u32) -> Result<Use, Memory>
        ensures { IfOk result (λ found. IsUse found name.now place levels (done_of self.now)) }
    {
        match self.macros.text(name)? {
            None => Ok(Use::Unknown),
            Some(_) if levels == 0 => Ok(Use::TooDeep),
            Some(_) if self.quiet.has(name, place, levels) => Ok(Use::Quiet),
            Some(text) => Ok(Use::Text(text)),
        }
    }

    /// A use of the macro was read, before which `fresh` was as told and was then set to true.
    #[tactic(auto, using(crate::proofs::Quieted::noted_is_quiet, crate::proofs::Quieted::kept_is_quiet))]
    pub(crate) fn note_use(
        &mut self,
        name: &Text,
        place: Pos,
        levels: u32,
        fresh: bool,
    ) -> Result<(), Memory>
        requires { self.old.fresh ≡ true → IsQuietUse name.now place levels (done_of self.old) }
        ensures same { OnOk result (done_of self.new ≡ done_of self.old) }
        ensures flag { OnOk result (self.new.fresh ≡ (self.old.fresh && fresh)) }
    {
        if self.fresh {
            self.quiet.note(self.alloc, name, place, levels)?;
        }
        self.fresh = self.fresh && fresh;
        Ok(())
    }
}

/// The same token at another place.
fn moved(alloc: Global, token: &Token, pos: Pos) -> Result<Token, Memory>
    ensures { IfOk result (λ t. t ≡ prep.moved token.now pos) }
{
    Ok(Token {
        kind: token.kind.copied(alloc)?,
        pos,
    })
}
