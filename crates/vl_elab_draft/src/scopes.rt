//! A scope with the scopes around it.
ghost use Rattle.std.specs.Prelude.{◌≡◌, ◌++◌, ◌∷◌, [], drop, reverse, slice_get, IfOk, OnOk, OnErr};
ghost use Rattle.std.specs.Option.{option_copied};
ghost use Rattle.vl_mean.specs.Scopes as spec;

use crate::path::Path;
use crate::scope::Scope;
use fv_text::{Memory, Text};
use std::alloc::Global;
use std::marker::Model;
use vl_mean::Const;
use vl_size::Decl;

/// The scopes in which names are read, the innermost first. They are as many as constructs are open in the text.
#[derive(Drop)]
pub struct Scopes {
    scopes: Vec<Scope>,
}

impl Model for Scopes {
    ghost use Rattle.std.specs.Prelude.{List, reverse};
    ghost use Rattle.vl_mean.specs.Scopes as spec;

    ghost Value = { List spec.Scope };

    ghost view = { λ s. reverse s.scopes.items };
}

impl Scopes {
    /// No scope.
    pub fn new(alloc: Global) -> Scopes
        ensures { result ≡ [] }
    {
        Scopes {
            scopes: Vec::new(alloc),
        }
    }

    /// Enters a scope within the others. Where no memory is left it is dropped.
    pub fn enter(&mut self, scope: Scope) -> Result<(), Memory>
        ensures ok { OnOk result (self.new ≡ scope ∷ self.old) }
        ensures err { OnErr result (self.new ≡ self.old) }
    {
        push(&mut self.scopes, scope)
    }

    /// Leaves the innermost scope. None exactly where there is none.
    pub fn leave(&mut self) -> Option<Scope>
        ensures value { result ≡ slice_get self.old 0 }
        ensures rest { self.new ≡ drop 1 self.old }
    {
        self.scopes.pop()
    }

    /// The full name of a name: the innermost scope that declares it stands before it by its path, and shares its text.
    /// A name that no scope declares as a net or a variable stays as it is.
    pub fn full(&self, alloc: Global, name: &Text) -> Result<Text, Memory>
        ensures { IfOk result (λ text. text ≡ spec.full self.now name.now) }
    {
        full_among(alloc, self.scopes.as_slice(), name)
    }

    /// The full name of a name under a path. Where the scopes hold it for the name, their text is shared.
    pub fn under(&self, alloc: Global, path: &Path, name: &Text) -> Result<Text, Memory>
        ensures { IfOk result (λ text. text ≡ path.now ++ name.now) }
    {
        let made = path.joined(alloc, name)?;
        let known = self.full(alloc, name)?;
        if known.is(made.bytes()) {
            Ok(known)
        } else {
            Ok(made)
        }
    }

    /// The constant that a name means. None exactly where it means none.
    pub fn constant(&self, name: &Text) -> Option<&Const>
        ensures { option_copied result ≡ spec.constant_in self.now name.now }
    {
        constant_among(self.scopes.as_slice(), name)
    }

    /// The net or variable that a name means. None exactly where it means none.
    pub fn declared(&self, name: &Text) -> Option<&Decl>
        ensures { option_copied result ≡ spec.declared_in self.now name.now }
    {
        declared_among(self.scopes.as_slice(), name)
    }
}

fn push(scopes: &mut Vec<Scope>, scope: Scope) -> Result<(), Memory>
    ensures ok { OnOk result (scopes.new.items ≡ scopes.old.items ++ scope ∷ []) }
    ensures err { OnErr result (scopes.new.items ≡ scopes.old.items) }
{
    match scopes.push(scope) {
        Ok(()) => Ok(()),
        Err(_) => Err(Memory),
    }
}

/// The innermost scope stands last.
#[tactic(auto, using(crate::proofs::Inner::inner_scopes))]
fn full_among(alloc: Global, scopes: &[Scope], name: &Text) -> Result<Text, Memory>
    ensures { IfOk result (λ text. text ≡ spec.full (reverse scopes.now) name.now) }
{
    match scopes.split_last() {
        None => name.copied(alloc),
        Some((last, around)) => match last.full(name) {
            Some(text) => text.copied(alloc),
            None => full_among(alloc, around, name),
        },
    }
}

/// The innermost scope stands last.
#[tactic(auto, using(crate::proofs::Inner::inner_scopes))]
fn constant_among<'a>(scopes: &'a [Scope], name: &Text) -> Option<&'a Const>
    ensures { option_copied result ≡ spec.constant_in (reverse scopes.now) name.now }
{
    match scopes.split_last() {
        None => None,
        Some((last, around)) => match last.constant(name) {
            Some(value) => Some(value),
            None => {
                if last.is_declared(name) {
                    None
                } else {
                    constant_among(around, name)
                }
            }
        },
    }
}

/// The innermost scope stands last.
#[tactic(auto, using(crate::proofs::Inner::inner_scopes))]
fn declared_among<'a>(scopes: &'a [Scope], name: &Text) -> Option<&'a Decl>
    ensures { option_copied result ≡ spec.declared_in (reverse scopes.now) name.now }
{
    match scopes.split_last() {
        None => None,
        Some((last, around)) => match last.constant(name) {
            Some(_) => None,
            None => match last.declared(name) {
                Some(decl) => Some(decl),
                None => declared_among(around, name),
            },
        },
    }
}
