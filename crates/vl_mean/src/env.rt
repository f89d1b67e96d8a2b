ghost use Rattle.std.specs.Prelude.{◌≡◌, ℕ, ℤ, List, None, Some, OnOk, OnErr};
ghost use Rattle.vl_size.specs.Table.{word_name};
ghost use Rattle.vl_mean.specs.Env.{values_of, with_number};

use fv_text::{Memory, Text};
use indexmap::IndexMap;
use std::alloc::Global;
use vl_size::Decls;

/// Declarations, and numbers of their names: of a memory those of its words, whose names are printed with their
/// index, as
/// `m[3]`. Seen as a map from full names to numbers: `values_of` of specs/Env.
#[derive(Drop)]
pub struct Env {
    pub(crate) decls: Decls,
    pub(crate) numbers: IndexMap<Vec<u8>, u128>,
    alloc: Global,
}

impl Env {
    /// Each name has the number 0.
    pub fn new(alloc: Global, decls: Decls) -> Env
        ensures decls { result.decls ≡ decls }
        ensures numbers { (name : List ℕ) → values_of result name ≡ 0 }
    {
        Env {
            decls,
            numbers: IndexMap::new(alloc),
            alloc,
        }
    }

    /// Sets the number of a name, or of a memory's word by its printed name.
    pub fn set(&mut self, name: &Text, value: u128) -> Result<(), Memory>
        ensures decls { self.new.decls ≡ self.old.decls }
        ensures ok { OnOk result ((other : List ℕ)
            → values_of self.new other ≡ with_number name.now value (values_of self.old) other) }
        ensures err { OnErr result ((other : List ℕ) → values_of self.new other ≡ values_of self.old other) }
    {
        let key = Vec::from_slice(self.alloc, name.bytes())?;
        self.numbers.insert(key, value)?;
        Ok(())
    }

    /// The declarations of the names.
    pub fn decls(&self) -> &Decls
        ensures { result.now ≡ self.now.decls }
    {
        &self.decls
    }

    /// The number of a name.
    pub fn get(&self, name: &Text) -> u128
        ensures { result ≡ values_of self.now name.now }
    {
        match self.numbers.get(name.bytes()) {
            None => 0,
            Some(number) => *number,
        }
    }
}
