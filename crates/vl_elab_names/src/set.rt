//! Sets of names.
ghost use Rattle.std.specs.Prelude.{◌≡◌, ◌||◌, ℕ, List, false, bytes_eq, IfOk, OnOk, OnErr};
ghost use Rattle.vl_elab_names.specs.Known as spec;

use fv_text::{Memory, Text};
use indexmap::IndexMap;
use std::alloc::Global;

/// Names, seen as a test: `contains` of specs/Known. The first two stand apart, so that a set of so few has no map.
#[derive(Drop)]
pub struct NameSet {
    alloc: Global,
    first: Option<Text>,
    second: Option<Text>,
    others: Option<Box<Others>>,
}

/// The names behind the first two.
#[derive(Drop)]
pub(crate) struct Others {
    map: IndexMap<Vec<u8>, ()>,
}

impl NameSet {
    pub fn new(alloc: Global) -> NameSet
        ensures { (name : List ℕ) → spec.contains result name ≡ false }
    {
        NameSet {
            alloc,
            first: None,
            second: None,
            others: None,
        }
    }

    pub fn contains(&self, name: &Text) -> bool
        ensures { result ≡ spec.contains self.now name.now }
    {
        is_apart(&self.first, name) || is_apart(&self.second, name) || is_other(&self.others, name)
    }

    /// Adds a name, which may be there already. Where no memory is left nothing is added.
    pub fn add(&mut self, name: Text) -> Result<(), Memory>
        ensures ok { OnOk result ((other : List ℕ)
            → spec.contains self.new other ≡ (bytes_eq other name || spec.contains self.old other)) }
        ensures err { OnErr result ((other : List ℕ) → spec.contains self.new other ≡ spec.contains self.old other) }
    {
        if self.first.is_none() {
            self.first = Some(name);
            return Ok(());
        }
        if self.second.is_none() {
            self.second = Some(name);
            return Ok(());
        }
        add_other(self.alloc, &mut self.others, name)
    }
}

fn is_apart(apart: &Option<Text>, name: &Text) -> bool
    ensures { result ≡ spec.is_apart apart.now name.now }
{
    match apart {
        None => false,
        Some(text) => name.bytes() == text.bytes(),
    }
}

fn is_other(others: &Option<Box<Others>>, name: &Text) -> bool
    ensures { result ≡ spec.is_other others.now name.now }
{
    match others {
        None => false,
        Some(others) => is_in(others, name),
    }
}

fn is_in(others: &Others, name: &Text) -> bool
    ensures { result ≡ spec.is_in others.now name.now }
{
    others.map.get(name.bytes()).is_some()
}

fn add_other(alloc: Global, others: &mut Option<Box<Others>>, name: Text) -> Result<(), Memory>
    ensures ok { OnOk result ((other : List ℕ)
        → spec.is_other others.new other ≡ (bytes_eq other name || spec.is_other others.old other)) }
    ensures err { OnErr result ((other : List ℕ) → spec.is_other others.new other ≡ spec.is_other others.old other) }
{
    match others {
        None => {
            *others = Some(only(alloc, name)?);
            Ok(())
        }
        Some(others) => put(&mut **others, name),
    }
}

fn none(alloc: Global) -> Others
    ensures { (name : List ℕ) → spec.is_in result name ≡ false }
{
    Others {
        map: IndexMap::new(alloc),
    }
}

/// One name.
fn only(alloc: Global, name: Text) -> Result<Box<Others>, Memory>
    ensures { IfOk result (λ b. (other : List ℕ) → spec.is_in b.value other ≡ (bytes_eq other name || false)) }
{
    let mut others = none(alloc);
    put(&mut others, name)?;
    match Box::new(alloc, others) {
        Ok(others) => Ok(others),
        Err(_) => Err(Memory),
    }
}

fn put(others: &mut Others, name: Text) -> Result<(), Memory>
    ensures ok { OnOk result ((other : List ℕ)
        → spec.is_in others.new other ≡ (bytes_eq other name || spec.is_in others.old other)) }
    ensures err { OnErr result ((other : List ℕ) → spec.is_in others.new other ≡ spec.is_in others.old other) }
{
    let key = name.into_vec()?;
    others.map.insert(key, ())?;
    Ok(())
}
