//! One scope, with the names that it declares.
ghost use Rattle.std.specs.Prelude.{◌≡◌, ◌++◌, ◌∷◌, [], ◌-◌, ◌<◌, ◌^◌, false, None, length, slice_get, OnOk, OnErr};
ghost use Rattle.std.specs.Option.{option_copied};
ghost use Rattle.vl_size.specs.Table.{declared_as, is_declared, AreApart, IsPlain, IsShaped};
ghost use Rattle.vl_mean.specs.Constants.{constant_of};
ghost use Rattle.vl_elab_draft.specs.Kept as spec;

use crate::full_constants::ConstantTable;
use crate::path::Path;
use fv_text::{Memory, Text};
use std::alloc::Global;
use std::marker::Model;
use vl_mean::Const;
use vl_size::{Decl, Decls};

/// A module's instance, a generate block or a turn of a generate loop: its path, and its declarations and constants in
/// order. No bracket stands in a declared name. The full name of each declaration is made once, and all that mention it
/// share its text.
#[derive(Drop)]
pub struct Scope {
    path: Path,
    decls: Decls,
    /// Those of the declarations, in order.
    full_names: Vec<Text>,
    constants: ConstantTable,
}

impl Model for Scope {
    ghost use Rattle.std.specs.Prelude.{◌≡◌, All};
    ghost use Rattle.vl_size.specs.Table.{IsPlain};
    ghost use Rattle.vl_mean.specs.Scopes as scopes;
    ghost use Rattle.vl_elab_draft.specs.Kept.{names_under};

    ghost Value = { scopes.Scope };

    ghost view = { λ s. record {
      path = s.path;
      decls = s.decls;
      constants = s.constants;
    } };

    ghost invariant = { λ s. All IsPlain s.decls × (s.full_names.items ≡ names_under s.path s.decls) };
}

impl Scope {
    /// A scope that declares nothing. A path ends with a dot; that of the top module is empty.
    pub fn new(alloc: Global, path: Path) -> Scope
        ensures { result ≡ spec.empty_scope path }
    {
        Scope {
            path,
            decls: Decls::new(alloc),
            full_names: Vec::new(alloc),
            constants: ConstantTable::new(alloc),
        }
    }

    /// None exactly where the scope has no constant of the name.
    pub fn constant(&self, name: &Text) -> Option<&Const>
        ensures { option_copied result ≡ constant_of self.now.constants name.now }
    {
        self.constants.get(name)
    }

    /// None exactly where the scope has no net and no variable of the name.
    pub fn declared(&self, name: &Text) -> Option<&Decl>
        ensures { option_copied result ≡ declared_as self.now.decls name.now }
    {
        self.decls.named(name)
    }

    /// Whether the scope has a net or a variable of the name.
    pub fn is_declared(&self, name: &Text) -> bool
        ensures { result ≡ is_declared self.now.decls name.now }
    {
        self.decls.is_declared(name)
    }

    /// The full name of a name. None exactly where the scope has no net and no variable of the name.
    #[tactic(auto, using(crate::proofs::FullNames::own_names))]
    pub fn full(&self, name: &Text) -> Option<&Text>
        ensures { option_copied result ≡ spec.own_full self.now name.now }
    {
        match self.decls.find(name) {
            None => None,
            Some(place) => text_at(self.full_names.as_slice(), place),
        }
    }

    /// Adds a constant behind the others. Where no memory is left nothing is added.
    pub fn add_constant(&mut self, name: Text, value: Const) -> Result<(), Memory>
        requires { constant_of self.old.constants name ≡ None }
        ensures ok { OnOk result (self.new ≡ spec.with_constant self.old name value) }
        ensures err { OnErr result (self.new ≡ self.old) }
    {
        self.constants.add(name, value)
    }

    /// Adds a net or a variable behind the others. Where no memory is left it is dropped; so many that a table has no
    /// place for one more don't stand in memory.
    #[tactic(auto, using(vl_size::proofs::Plain::plain_names, crate::proofs::FullNames::own_names))]
    pub fn declare(&mut self, alloc: Global, decl: Decl) -> Result<(), Memory>
        requires fresh { is_declared self.old.decls decl.name ≡ false }
        requires plain { IsPlain decl }
        requires shaped { IsShaped decl }
        ensures ok { OnOk result (self.new ≡ spec.with_decl self.old decl) }
        ensures err { OnErr result (self.new ≡ self.old) }
    {
        if self.decls.len() >= 4_294_967_295 {
            return Err(Memory);
        }
        let full_name = self.path.joined(alloc, &decl.name)?.shared(alloc)?;
        add(&mut self.decls, &mut self.full_names, decl, full_name)?;
        Ok(())
    }
}

/// None exactly where there are no more texts than the place says.
fn text_at(all: &[Text], place: u32) -> Option<&Text>
    ensures { option_copied result ≡ slice_get all.now place }
{
    all.get(place as usize)
}

/// Adds a declaration and its full name, each behind the others, or neither.
fn add(
    decls: &mut Decls,
    full_names: &mut Vec<Text>,
    decl: Decl,
    full_name: Text,
) -> Result<(), Memory>
    requires fresh { is_declared decls.old decl.name ≡ false }
    requires apart { AreApart (decls.old ++ decl ∷ []) }
    requires shaped { IsShaped decl }
    requires few { length decls.old < 2 ^ 32 - 1 }
    ensures declared { OnOk result (decls.new ≡ decls.old ++ decl ∷ []) }
    ensures named { OnOk result (full_names.new.items ≡ full_names.old.items ++ full_name ∷ []) }
    ensures err { OnErr result ((decls.new ≡ decls.old) × (full_names.new.items ≡ full_names.old.items)) }
{
    let count = full_names.len();
    full_names.push(full_name)?;
    match decls.push(decl) {
        Ok(()) => Ok(()),
        Err(fault) => {
            full_names.truncate(count);
            Err(fault)
        }
    }
}
