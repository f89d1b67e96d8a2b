ghost use Rattle.std.specs.Prelude.{◌≡◌, ℕ, List, None, Some, OnOk, OnErr};
ghost use Rattle.std.specs.Option.{option_copied};
ghost use Rattle.vl_mean.specs.Params.{constant, with_constant};

use crate::const_number::Const;
use fv_text::{Memory, Text};
use indexmap::IndexMap;
use std::alloc::Global;

/// Names with their constants, seen as a map: `constant` of specs/Params.
#[derive(Drop)]
pub struct Params {
    map: IndexMap<Vec<u8>, Const>,
}

impl Params {
    pub fn new(alloc: Global) -> Params
        ensures { (name : List ℕ) → constant result name ≡ None }
    {
        Params {
            map: IndexMap::new(alloc),
        }
    }

    /// Sets the constant of a name, in place of one that it has.
    pub fn set(&mut self, name: Text, value: Const) -> Result<(), Memory>
        ensures ok { OnOk result ((other : List ℕ)
            → constant self.new other ≡ with_constant name value (constant self.old) other) }
        ensures err { OnErr result ((other : List ℕ) → constant self.new other ≡ constant self.old other) }
    {
        let key = name.into_vec()?;
        self.map.insert(key, value)?;
        Ok(())
    }

    /// None exactly where the name has no constant.
    pub fn get(&self, name: &Text) -> Option<&Const>
        ensures { option_copied result ≡ constant self.now name.now }
    {
        self.map.get(name.bytes())
    }
}
