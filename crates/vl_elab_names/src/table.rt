//! Modules by their names.
ghost use Rattle.std.specs.Prelude.{◌≡◌, ℕ, List, Some, bytes_eq, slice_get, IfOk, OnOk, if◌then◌else◌};
ghost use Rattle.std.specs.Option.{option_copied};
ghost use Rattle.vl_mean.specs.Walk.{module_named};
ghost use Rattle.vl_elab_names.specs.Table as spec;

use fv_text::{Memory, Text};
use indexmap::IndexMap;
use std::alloc::Global;
use vl_tree::Module;

/// The places of modules, by name.
#[derive(Drop)]
pub struct ModuleTable {
    places: IndexMap<Vec<u8>, usize>,
}

impl ModuleTable {
    /// Of two modules of one name the first counts.
    pub fn new(alloc: Global, all: &[Module]) -> Result<ModuleTable, Memory>
        ensures { IfOk result (λ table. spec.AreModules table all.now) }
    {
        let mut table = ModuleTable {
            places: IndexMap::new(alloc),
        };
        let mut place = all.len();
        while place > 0 {
            place -= 1;
            table.put(all[place].name.copied(alloc)?, place)?;
        }
        Ok(table)
    }

    /// In place of one of the same name.
    fn put(&mut self, name: Text, place: usize) -> Result<(), Memory>
        ensures { OnOk result ((other : List ℕ) → spec.place_in self.new other
            ≡ (if bytes_eq name other then Some place else spec.place_in self.old other)) }
    {
        let key = name.into_vec()?;
        self.places.insert(key, place)?;
        Ok(())
    }

    /// The module of this name. `all`: the modules of the table. None exactly where none has the name.
    pub fn find<'a>(&self, all: &'a [Module], name: &Text) -> Option<&'a Module>
        requires { spec.AreModules self.now all.now }
        ensures { option_copied result ≡ module_named all.now name.now }
    {
        match self.places.get(name.bytes()) {
            None => None,
            Some(place) => module_at(all, *place),
        }
    }
}

fn module_at(all: &[Module], place: usize) -> Option<&Module>
    ensures { option_copied result ≡ slice_get all.now place }
{
    all.get(place)
}
