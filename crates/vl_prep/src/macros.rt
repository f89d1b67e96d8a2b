ghost use Rattle.std.specs.Prelude.{◌≡◌, ℕ, None, Some, List, is_some, IfOk, OnOk, OnErr, MatchOption};
ghost use Rattle.std.specs.Bool.{OnTrue};
ghost use Rattle.std.specs.Option.{option_map};
ghost use Rattle.vl_prep.specs.Macros.{held, with_text};

use fv_text::{List, Memory, Text, Token};
use indexmap::IndexMap;
use std::alloc::Global;
use std::sync::Arc;

/// The macros that are defined, seen as a map from names to token lists: `held` of specs/Macros.
#[derive(Drop)]
pub struct Macros {
    /// None at a name whose definition was taken back.
    texts: IndexMap<Vec<u8>, Option<Arc<List<Token>>>>,
    alloc: Global,
}

impl Macros {
    pub fn empty(alloc: Global) -> Macros
        ensures { (name : List ℕ) → held result name ≡ None }
    {
        Macros {
            texts: IndexMap::new(alloc),
            alloc,
        }
    }

    /// Defines a macro, in place of one of the same name.
    pub fn set(&mut self, name: Text, body: Vec<Token>) -> Result<(), Memory>
        ensures ok { OnOk result ((other : List ℕ)
            → held self.new other ≡ with_text name (Some body.items) (held self.old) other) }
        ensures err { OnErr result ((other : List ℕ) → held self.new other ≡ held self.old other) }
    {
        let text = Arc::new(self.alloc, List::from_vec(body))?;
        self.put(name, Some(text))
    }

    pub fn has(&self, name: &str) -> bool
        ensures { result ≡ is_some (held self.now name.now) }
    {
        self.is_defined(name.as_bytes())
    }

    pub(crate) fn is_defined(&self, name: &[u8]) -> bool
        ensures { result ≡ is_some (held self.now name.now) }
    {
        matches!(self.texts.get(name), Some(Some(_)))
    }

    /// Whether the macro is defined with this text.
    pub(crate) fn has_text(&self, name: &[u8], text: &[Token]) -> bool
        ensures { OnTrue result (held self.now name.now ≡ Some text.now) }
    {
        match self.texts.get(name) {
            Some(Some(known)) => are_same(known.as_slice(), text),
            _ => false,
        }
    }

    /// The text of a macro, which stays as it is where the macro is defined anew.
    pub(crate) fn text(&self, name: &[u8]) -> Result<Option<Arc<List<Token>>>, Memory>
        ensures { IfOk result (λ found. MatchOption found (held self.now name.now ≡ None)
            (λ text. held self.now name.now ≡ Some text.value)) }
    {
        match self.texts.get(name) {
            Some(Some(text)) => Ok(Some(text.clone()?)),
            _ => Ok(None),
        }
    }

    /// Takes the definition of a macro back, if there is one.
    pub(crate) fn unset(&mut self, name: &Text) -> Result<(), Memory>
        ensures ok { OnOk result ((other : List ℕ)
            → held self.new other ≡ with_text name.now None (held self.old) other) }
    {
        if self.is_defined(name.bytes()) {
            self.put(name.copied(self.alloc)?, None)?;
        }
        Ok(())
    }

    fn put(&mut self, name: Text, text: Option<Arc<List<Token>>>) -> Result<(), Memory>
        ensures ok { OnOk result ((other : List ℕ)
            → held self.new other ≡ with_text name (option_map (λ t. t.value) text) (held self.old) other) }
        ensures err { OnErr result ((other : List ℕ) → held self.new other ≡ held self.old other) }
    {
        let key = name.into_vec()?;
        self.texts.insert(key, text)?;
        Ok(())
    }
}

/// Whether the tokens are the same, with their places.
fn are_same(tokens: &[Token], others: &[Token]) -> bool
    ensures { OnTrue result (tokens.now ≡ others.now) }
{
    let mut left = tokens;
    let mut right = others;
    while let (Some((token, behind)), Some((other, behind_other))) = (
        left.split_first(),
        right.split_first(),
    ) {
        if !token.is(other) {
            return false;
        }
        left = behind;
        right = behind_other;
    }
    left.is_empty() && right.is_empty()
}
