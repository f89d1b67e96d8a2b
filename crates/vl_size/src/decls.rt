ghost use Rattle.std.specs.Prelude.{
  ◌≡◌,
  ◌++◌,
  ◌∷◌,
  [],
  ◌+◌,
  ◌-◌,
  ◌<◌,
  ◌^◌,
  false,
  None,
  bytes_eq,
  length,
  slice_get,
};
ghost use Rattle.std.specs.Prelude.{All, IfSome, OnOk, OnErr};
ghost use Rattle.std.specs.Option.{option_copied};
ghost use Rattle.std.specs.Map.{lookup};
ghost use Rattle.vl_size.specs.Table.{place, declared_as, is_declared, IsShaped, AreApart, AreDifferent};

use crate::decl::Decl;
use fv_text::{Memory, Text};
use indexmap::IndexMap;
use std::alloc::Global;
use std::marker::Model;

/// Declarations in order. Their names differ, none is that of a memory's word, and each width is that of its range.
#[derive(Drop)]
pub struct Decls {
    alloc: Global,
    map: IndexMap<Vec<u8>, Decl>,
}

impl Model for Decls {
    ghost use Rattle.std.specs.Prelude.{List};
    ghost use Rattle.vl_size.specs.declared.decl.Decl.{Decl};
    ghost use Rattle.vl_size.specs.Entries.{decls_of, IsTable};

    ghost Value = { List Decl };

    ghost view = { λ d. decls_of d.map.entries };

    ghost invariant = { λ d. IsTable d.map.entries };
}

impl Decls {
    pub fn new(alloc: Global) -> Decls
        ensures { result ≡ [] }
    {
        Decls {
            alloc,
            map: IndexMap::new(alloc),
        }
    }

    pub fn len(&self) -> usize
        ensures value { result ≡ length self.now }
        ensures few { length self.now < 2 ^ 32 }
        ensures shaped { All IsShaped self.now }
        ensures apart { AreApart self.now }
        ensures different { AreDifferent self.now }
    {
        self.map.len()
    }

    /// None exactly where the index isn't below the length.
    pub fn get(&self, index: usize) -> Option<&Decl>
        ensures { option_copied result ≡ slice_get self.now index }
    {
        match self.map.get_index(index) {
            Some((_, decl)) => Some(decl),
            None => None,
        }
    }

    /// The place of the name. None exactly where the name isn't declared.
    pub fn find(&self, name: &Text) -> Option<u32>
        ensures { result ≡ place self.now name.now }
    {
        match self.map.get_index_of(name.bytes()) {
            Some(index) => Some(index as u32),
            None => None,
        }
    }

    /// The declaration of the name. None exactly where the name isn't declared.
    pub fn named(&self, name: &Text) -> Option<&Decl>
        ensures value { option_copied result ≡ declared_as self.now name.now }
        ensures shaped { IfSome (option_copied result) IsShaped }
    {
        self.map.get(name.bytes())
    }

    /// Whether the name is declared.
    pub fn is_declared(&self, name: &Text) -> bool
        ensures { result ≡ is_declared self.now name.now }
    {
        self.named(name).is_some()
    }

    /// Adds the declaration behind the others. Where no memory is left it is dropped.
    pub fn push(&mut self, decl: Decl) -> Result<(), Memory>
        requires fresh { is_declared self.old decl.name ≡ false }
        requires apart { AreApart (self.old ++ decl ∷ []) }
        requires shaped { IsShaped decl }
        requires few { length self.old < 2 ^ 32 - 1 }
        ensures ok { OnOk result (self.new ≡ self.old ++ decl ∷ []) }
        ensures err { OnErr result (self.new ≡ self.old) }
    {
        let Ok(key) = Vec::from_slice(self.alloc, decl.name.bytes()) else {
            return Err(Memory);
        };
        put(&mut self.map, key, decl)
    }
}

/// A new key goes behind the others.
fn put(map: &mut IndexMap<Vec<u8>, Decl>, key: Vec<u8>, decl: Decl) -> Result<(), Memory>
    requires { lookup (λ k. bytes_eq key.items k.items) map.old.entries ≡ None }
    ensures ok { OnOk result (map.new.entries ≡ map.old.entries ++ (key, decl) ∷ []) }
    ensures err { OnErr result (map.new.entries ≡ map.old.entries) }
{
    match map.insert(key, decl) {
        Ok(_) => Ok(()),
        Err(_) => Err(Memory),
    }
}
