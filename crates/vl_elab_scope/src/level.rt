//! The names of one scope.
ghost use Rattle.std.specs.Prelude.{◌≡◌, ◌++◌, ◌∷◌, [], None, IfOk, OnOk, OnErr, bytes_eq};
ghost use Rattle.std.specs.Option.{option_copied};
ghost use Rattle.std.specs.Map.{lookup};
ghost use Rattle.vl_elab_spec.specs.Meanings.{meaning_of};
ghost use Rattle.vl_elab_scope.specs.Seen as spec;

use crate::meaning::{Filled, Meaning, Named};
use fv_text::{Memory, Text};
use indexmap::IndexMap;
use std::alloc::Global;
use std::marker::Model;

/// The names of a scope, seen as the list of them with their meanings. A net or a variable stands under its own name.
/// They are kept in one place of their own, so that a scope without names, as of an instance that gives and declares
/// nothing, takes no memory, and each is as small as a pointer to be moved.
#[derive(Drop)]
pub struct Level {
    alloc: Global,
    filled: Option<Box<Filled>>,
}

impl Model for Level {
    ghost use Rattle.vl_elab_spec.specs.Meanings as meanings;
    ghost use Rattle.vl_elab_scope.specs.Seen.{names_in, AreNamed};

    ghost Value = { meanings.Names };

    ghost view = { λ l. names_in l.filled };

    ghost invariant = { λ l. AreNamed (names_in l.filled) };
}

impl Level {
    pub fn new(alloc: Global) -> Level
        ensures { result ≡ [] }
    {
        Level {
            alloc,
            filled: None,
        }
    }

    /// What the scope says of the name. None exactly where it doesn't declare it.
    pub fn meaning(&self, name: &Text) -> Option<&Meaning>
        ensures { spec.seen_or (option_copied result) ≡ meaning_of self.now name.now }
    {
        meaning_among(&self.filled, name)
    }

    /// Adds a name behind the others. Of two alike the first counts, so the second is dropped. Where no memory is left
    /// nothing is added.
    pub fn add(&mut self, name: Text, meaning: Meaning) -> Result<(), Memory>
        requires { spec.IsNamed (name, spec.seen meaning) }
        ensures ok { OnOk result (self.new ≡ spec.with_name self.old name (spec.seen meaning)) }
        ensures err { OnErr result (self.new ≡ self.old) }
    {
        add_among(self.alloc, &mut self.filled, name, meaning)
    }

    /// A fact of each level.
    pub(crate) fn are_named(&self)
        ensures { spec.AreNamed self.now }
    {
        let _filled = &self.filled;
    }
}

fn is_name(text: &Text, other: &Text) -> bool
    ensures { result ≡ bytes_eq text.now other.now }
{
    text.bytes() == other.bytes()
}

/// Where there are none, the name isn't looked up.
fn other_meaning<'a>(others: &'a IndexMap<Vec<u8>, Meaning>, name: &Text) -> Option<&'a Meaning>
    ensures { spec.seen_or (option_copied result) ≡ meaning_of (spec.names_of others.now.entries) name.now }
{
    if others.is_empty() {
        None
    } else {
        others.get(name.bytes())
    }
}

/// What the first name and the others say of this one.
fn meaning_behind<'a>(filled: &'a Filled, name: &Text) -> Option<&'a Meaning>
    ensures { spec.seen_or (option_copied result) ≡ meaning_of (spec.filled_names filled.now) name.now }
{
    if is_name(name, &filled.first.text) {
        Some(&filled.first.meaning)
    } else {
        other_meaning(&filled.others, name)
    }
}

/// What the names say of this one.
fn meaning_among<'a>(filled: &'a Option<Box<Filled>>, name: &Text) -> Option<&'a Meaning>
    ensures { spec.seen_or (option_copied result) ≡ meaning_of (spec.names_in filled.now) name.now }
{
    match filled {
        None => None,
        Some(filled) => meaning_behind(filled, name),
    }
}

/// A scope with one name.
fn boxed(alloc: Global, name: Text, meaning: Meaning) -> Result<Box<Filled>, Memory>
    ensures { IfOk result (λ b. spec.filled_names b.value ≡ (name, spec.seen meaning) ∷ []) }
{
    let first = Named {
        text: name,
        meaning,
    };
    let filled = Filled {
        first,
        others: IndexMap::new(alloc),
    };
    match Box::new(alloc, filled) {
        Ok(filled) => Ok(filled),
        Err(_) => Err(Memory),
    }
}

fn add_among(
    alloc: Global,
    filled: &mut Option<Box<Filled>>,
    name: Text,
    meaning: Meaning,
) -> Result<(), Memory>
    ensures ok { OnOk result (spec.names_in filled.new
        ≡ spec.with_name (spec.names_in filled.old) name (spec.seen meaning)) }
    ensures err { OnErr result (spec.names_in filled.new ≡ spec.names_in filled.old) }
{
    match filled {
        None => {
            *filled = Some(boxed(alloc, name, meaning)?);
            Ok(())
        }
        Some(filled) => add_behind(&mut **filled, name, meaning),
    }
}

fn add_behind(filled: &mut Filled, name: Text, meaning: Meaning) -> Result<(), Memory>
    ensures ok { OnOk result (spec.filled_names filled.new
        ≡ spec.with_name (spec.filled_names filled.old) name (spec.seen meaning)) }
    ensures err { OnErr result (spec.filled_names filled.new ≡ spec.filled_names filled.old) }
{
    if meaning_behind(filled, &name).is_some() {
        return Ok(());
    }
    let key = name.into_vec()?;
    put(&mut filled.others, key, meaning)
}

/// A new key goes behind the others.
fn put(map: &mut IndexMap<Vec<u8>, Meaning>, key: Vec<u8>, meaning: Meaning) -> Result<(), Memory>
    requires { lookup (λ k. bytes_eq key.items k.items) map.old.entries ≡ None }
    ensures ok { OnOk result (map.new.entries ≡ map.old.entries ++ (key, meaning) ∷ []) }
    ensures err { OnErr result (map.new.entries ≡ map.old.entries) }
{
    match map.insert(key, meaning) {
        Ok(_) => Ok(()),
        Err(_) => Err(Memory),
    }
}
