//! What names mean in scopes.
ghost use Rattle.std.specs.Prelude.{◌≡◌, ◌-◌, ◌++◌, ◌∷◌, [], List, take, drop, length, IfOk, OnOk, OnErr};
ghost use Rattle.std.specs.Option.{option_copied};
ghost use Rattle.vl_elab_spec.specs.Meanings as meanings;
ghost use Rattle.vl_elab_spec.specs.Meanings.{meaning_in};
ghost use Rattle.vl_elab_scope.specs.Seen as spec;

use crate::level::Level;
use crate::meaning::Meaning;
use fv_text::{Memory, Text};
use std::alloc::Global;
use std::marker::Model;

/// The names of a scope and of the scopes around it, seen as lists of names with their meanings, the innermost scope
/// first. A net or a variable stands under its own name.
#[derive(Drop)]
pub struct Names {
    levels: Vec<Level>,
}

impl Model for Names {
    ghost use Rattle.std.specs.Prelude.{List};
    ghost use Rattle.vl_elab_spec.specs.Meanings as meanings;
    ghost use Rattle.vl_elab_scope.specs.Seen.{inward, AllNamed};

    ghost Value = { List meanings.Names };

    ghost view = { λ n. inward n.levels.items };

    ghost invariant = { λ n. AllNamed (inward n.levels.items) };
}

impl Names {
    /// No scope.
    pub fn new(alloc: Global) -> Names
        ensures { result ≡ [] }
    {
        Names {
            levels: Vec::new(alloc),
        }
    }

    /// Enters a scope within the others. Where no memory is left it is dropped.
    pub fn enter(&mut self, level: Level) -> Result<(), Memory>
        ensures ok { OnOk result (self.new ≡ level ∷ self.old) }
        ensures err { OnErr result (self.new ≡ self.old) }
    {
        level.are_named();
        push(&mut self.levels, level)
    }

    /// Leaves the innermost scope, where there is one.
    pub fn leave(&mut self)
        ensures { self.new ≡ drop 1 self.old }
    {
        match self.levels.pop() {
            None => {}
            Some(_) => {}
        }
    }

    /// Leaves the innermost scope and hands its names out. Without a scope there are none.
    pub fn take(&mut self, alloc: Global) -> Level
        ensures level { result ≡ spec.innermost self.old }
        ensures rest { self.new ≡ drop 1 self.old }
    {
        let last = self.levels.pop();
        or_empty(alloc, last)
    }

    /// Enters all scopes of others within these, in their order; the others have none then. How many there were is
    /// answered. Where no memory is left nothing changes.
    pub fn lay(&mut self, others: &mut Names) -> Result<usize, Memory>
        ensures names { OnOk result (self.new ≡ others.old ++ self.old) }
        ensures others { OnOk result (others.new ≡ []) }
        ensures count { IfOk result (λ n. n ≡ length others.old) }
    {
        let count = others.levels.len();
        move_all(&mut self.levels, &mut others.levels)?;
        Ok(count)
    }

    /// Leaves so many scopes, where there are so many, and hands them out.
    pub fn lift(&mut self, count: usize) -> Result<Names, Memory>
        ensures laid { IfOk result (λ laid. (over rest : List meanings.Names)
            → self.old ≡ over ++ rest → length over ≡ count → laid ≡ over) }
        ensures rest { OnOk result ((over rest : List meanings.Names)
            → self.old ≡ over ++ rest → length over ≡ count → self.new ≡ rest) }
    {
        Ok(Names {
            levels: last_levels(&mut self.levels, count)?,
        })
    }

    /// What the innermost scope that declares the name says of it. None exactly where no scope does.
    pub fn meaning(&self, name: &Text) -> Option<&Meaning>
        ensures value { spec.seen_or (option_copied result) ≡ meaning_in self.now name.now }
        ensures named { spec.AllNamed self.now }
    {
        meaning_among(self.levels.as_slice(), name)
    }
}

fn or_empty(alloc: Global, level: Option<Level>) -> Level
    ensures { result ≡ spec.names_or level }
{
    match level {
        None => Level::new(alloc),
        Some(level) => level,
    }
}

fn push(levels: &mut Vec<Level>, level: Level) -> Result<(), Memory>
    ensures ok { OnOk result (levels.new.items ≡ levels.old.items ++ level ∷ []) }
    ensures err { OnErr result (levels.new.items ≡ levels.old.items) }
{
    match levels.push(level) {
        Ok(()) => Ok(()),
        Err(_) => Err(Memory),
    }
}

/// Behind the others.
fn move_all(levels: &mut Vec<Level>, others: &mut Vec<Level>) -> Result<(), Memory>
    ensures levels { OnOk result (levels.new.items ≡ levels.old.items ++ others.old.items) }
    ensures others { OnOk result (others.new.items ≡ []) }
    ensures err { OnErr result ((levels.new.items ≡ levels.old.items) × (others.new.items ≡ others.old.items)) }
{
    match levels.append(others) {
        Ok(()) => Ok(()),
        Err(_) => Err(Memory),
    }
}

/// So many of them, or all where there are fewer.
fn last_levels(levels: &mut Vec<Level>, count: usize) -> Result<Vec<Level>, Memory>
    ensures rest { OnOk result (levels.new.items ≡ take (length levels.old.items - count) levels.old.items) }
    ensures last { IfOk result (λ v. v.items ≡ drop (length levels.old.items - count) levels.old.items) }
    ensures err { OnErr result (levels.new.items ≡ levels.old.items) }
{
    let kept = levels.len().saturating_sub(count);
    match levels.split_off(kept) {
        Ok(last) => Ok(last),
        Err(_) => Err(Memory),
    }
}

/// The innermost scope stands last.
#[tactic(auto, using(crate::proofs::Levels::levels))]
fn meaning_among<'a>(levels: &'a [Level], name: &Text) -> Option<&'a Meaning>
    ensures { spec.seen_or (option_copied result) ≡ meaning_in (spec.inward levels.now) name.now }
{
    match levels.split_last() {
        None => None,
        Some((last, rest)) => match last.meaning(name) {
            None => meaning_among(rest, name),
            Some(meaning) => Some(meaning),
        },
    }
}
