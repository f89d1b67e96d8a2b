//! Modules that stand in one another.
ghost use Rattle.std.specs.Prelude.{◌≡◌, ◌++◌, ◌∷◌, [], ◌+◌, ℕ, List, drop, false, None, bytes_eq};
ghost use Rattle.std.specs.Prelude.{IfOk, OnOk, OnErr};
ghost use Rattle.std.specs.Map.{lookup};
ghost use Rattle.vl_mean.specs.Cells.{contains_name};
ghost use Rattle.vl_elab_names.specs.Path.{texts_of};

use fv_text::{List, Memory, Text};
use indexmap::IndexMap;
use std::alloc::Global;
use std::marker::Model;

/// Names of modules, of which each stands within the one before it, the top one first. No two are alike. The room of
/// names that left is kept for those that come.
#[derive(Drop)]
pub struct ModulePath {
    map: IndexMap<Vec<u8>, ()>,
    spare: Vec<Vec<u8>>,
}

impl Model for ModulePath {
    ghost use Rattle.std.specs.Prelude.{List, ℕ};
    ghost use Rattle.vl_elab_names.specs.Path.{texts_of};

    ghost Value = { List (List ℕ) };

    ghost view = { λ p. texts_of p.map.entries };
}

impl ModulePath {
    /// No module.
    pub fn new(alloc: Global) -> ModulePath
        ensures { result ≡ [] }
    {
        ModulePath {
            map: IndexMap::new(alloc),
            spare: Vec::new(alloc),
        }
    }

    /// Whether a module of this name is one of them.
    pub fn contains(&self, name: &Text) -> bool
        ensures { result ≡ contains_name self.now name.now }
    {
        self.map.get(name.bytes()).is_some()
    }

    /// Goes into a module, which isn't there. Where no memory is left the path is as before.
    pub fn push(&mut self, name: Text) -> Result<(), Memory>
        requires { contains_name self.old name ≡ false }
        ensures ok { OnOk result (self.new ≡ self.old ++ name ∷ []) }
        ensures err { OnErr result (self.new ≡ self.old) }
    {
        let key = name.into_vec()?;
        put(&mut self.map, key)
    }

    /// The same with a copy of the name, in the room of one that left.
    pub fn enter(&mut self, alloc: Global, name: &Text) -> Result<(), Memory>
        requires { contains_name self.old name.now ≡ false }
        ensures ok { OnOk result (self.new ≡ self.old ++ name.now ∷ []) }
        ensures err { OnErr result (self.new ≡ self.old) }
    {
        let key = copied_in(alloc, name, &mut self.spare)?;
        put(&mut self.map, key)
    }

    /// Leaves the innermost module.
    pub fn pop(&mut self)
        ensures { (names : List (List ℕ)) (name : List ℕ) → self.old ≡ names ++ name ∷ [] → self.new ≡ names }
    {
        match self.map.pop() {
            None => {}
            Some((name, _)) => keep(&mut self.spare, name),
        }
    }

    /// The names themselves.
    pub fn names(&self, alloc: Global) -> Result<List<Text>, Memory>
        ensures { IfOk result (λ names. names ≡ self.now) }
    {
        copied_names(alloc, &self.map)
    }
}

/// Keeps the room of a name. Where no memory is left to note it, it goes.
fn keep(spare: &mut Vec<Vec<u8>>, name: Vec<u8>) {
    match spare.push(name) {
        Ok(()) => {}
        Err(_) => {}
    }
}

/// A copy, in the room of a name that isn't used any more where there is one.
fn copied_in(alloc: Global, name: &Text, spare: &mut Vec<Vec<u8>>) -> Result<Vec<u8>, Memory>
    ensures { IfOk result (λ key. key.items ≡ name.now) }
{
    let mut key = match spare.pop() {
        None => Vec::new(alloc),
        Some(key) => key,
    };
    key.clear();
    key.extend_from_slice(name.bytes())?;
    Ok(key)
}

/// The name at a place, behind others.
fn add_name(
    alloc: Global,
    map: &IndexMap<Vec<u8>, ()>,
    place: usize,
    names: &mut List<Text>,
) -> Result<(), Memory>
    ensures { OnOk result (names.new ++ texts_of (drop (place + 1) map.now.entries)
        ≡ names.old ++ texts_of (drop place map.now.entries)) }
{
    match map.get_index(place) {
        None => Ok(()),
        Some((name, _)) => names.push(Text::from_bytes(alloc, name.as_slice())?),
    }
}

fn copied_names(alloc: Global, map: &IndexMap<Vec<u8>, ()>) -> Result<List<Text>, Memory>
    ensures { IfOk result (λ names. names ≡ texts_of map.now.entries) }
{
    let mut names = List::new(alloc);
    for place in 0..map.len() {
        add_name(alloc, map, place, &mut names)?;
    }
    Ok(names)
}

/// A new name goes behind the others.
fn put(map: &mut IndexMap<Vec<u8>, ()>, key: Vec<u8>) -> Result<(), Memory>
    requires { lookup (λ k. bytes_eq key.items k.items) map.old.entries ≡ None }
    ensures ok { OnOk result (map.new.entries ≡ map.old.entries ++ (key, tt) ∷ []) }
    ensures err { OnErr result (map.new.entries ≡ map.old.entries) }
{
    map.insert(key, ())?;
    Ok(())
}
