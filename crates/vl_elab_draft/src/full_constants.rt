//! The constants of one scope.
ghost use Rattle.std.specs.Prelude.{◌≡◌, ◌++◌, ◌∷◌, [], None, OnOk, OnErr, bytes_eq};
ghost use Rattle.std.specs.Option.{option_copied};
ghost use Rattle.std.specs.Map.{lookup};
ghost use Rattle.vl_mean.specs.Constants.{constant_of};
ghost use Rattle.vl_elab_draft.specs.Kept as spec;

use crate::named::Named;
use fv_text::{Memory, Text};
use indexmap::IndexMap;
use std::alloc::Global;
use std::marker::Model;
use vl_mean::Const;

/// Names with their constants, in order. The first one stands apart, so that a scope with one constant, such as a turn
/// of a loop, has no map.
#[derive(Drop)]
pub(crate) struct ConstantTable {
    leading: Option<Named>,
    others: IndexMap<Vec<u8>, Const>,
}

impl Model for ConstantTable {
    ghost use Rattle.vl_mean.specs.Constants as constants;
    ghost use Rattle.vl_elab_draft.specs.Kept.{constants_from, AreBehind};

    ghost Value = { constants.Constants };

    ghost view = { λ t. constants_from t.leading t.others.entries };

    ghost invariant = { λ t. AreBehind t.leading t.others.entries };
}

impl ConstantTable {
    pub(crate) fn new(alloc: Global) -> ConstantTable
        ensures { result ≡ [] }
    {
        ConstantTable {
            leading: None,
            others: IndexMap::new(alloc),
        }
    }

    /// None exactly where there is no constant of the name.
    pub(crate) fn get(&self, name: &Text) -> Option<&Const>
        ensures { option_copied result ≡ constant_of self.now name.now }
    {
        constant_among(&self.leading, &self.others, name)
    }

    /// Adds a constant behind the others. Where no memory is left nothing is added.
    pub(crate) fn add(&mut self, name: Text, value: Const) -> Result<(), Memory>
        requires { constant_of self.old name ≡ None }
        ensures ok { OnOk result (self.new ≡ self.old ++ (name, value) ∷ []) }
        ensures err { OnErr result (self.new ≡ self.old) }
    {
        add_among(&mut self.leading, &mut self.others, name, value)
    }
}

fn is_name(text: &Text, other: &Text) -> bool
    ensures { result ≡ bytes_eq text.now other.now }
{
    text.bytes() == other.bytes()
}

/// Where there are none, the name isn't looked up.
fn other_constant<'a>(others: &'a IndexMap<Vec<u8>, Const>, name: &Text) -> Option<&'a Const>
    ensures { option_copied result ≡ constant_of (spec.constants_of others.now.entries) name.now }
{
    if others.is_empty() {
        None
    } else {
        others.get(name.bytes())
    }
}

/// The constant of the name, among the first one and the others.
fn constant_behind<'a>(
    first: &'a Named,
    others: &'a IndexMap<Vec<u8>, Const>,
    name: &Text,
) -> Option<&'a Const>
    ensures { option_copied result
        ≡ constant_of ((first.now.text, first.now.value) ∷ spec.constants_of others.now.entries) name.now }
{
    if is_name(name, &first.text) {
        Some(&first.value)
    } else {
        other_constant(others, name)
    }
}

fn constant_among<'a>(
    leading: &'a Option<Named>,
    others: &'a IndexMap<Vec<u8>, Const>,
    name: &Text,
) -> Option<&'a Const>
    requires { spec.AreBehind leading.now others.now.entries }
    ensures { option_copied result
        ≡ constant_of (spec.constants_from leading.now others.now.entries) name.now }
{
    match leading {
        None => None,
        Some(first) => constant_behind(first, others, name),
    }
}

fn add_among(
    leading: &mut Option<Named>,
    others: &mut IndexMap<Vec<u8>, Const>,
    name: Text,
    value: Const,
) -> Result<(), Memory>
    requires behind { spec.AreBehind leading.old others.old.entries }
    requires fresh { constant_of (spec.constants_from leading.old others.old.entries) name ≡ None }
    ensures ok { OnOk result (spec.constants_from leading.new others.new.entries
        ≡ spec.constants_from leading.old others.old.entries ++ (name, value) ∷ []) }
    ensures err { OnErr result (spec.constants_from leading.new others.new.entries
        ≡ spec.constants_from leading.old others.old.entries) }
    ensures behind { spec.AreBehind leading.new others.new.entries }
{
    if leading.is_none() {
        *leading = Some(Named { text: name, value });
        return Ok(());
    }
    let key = name.into_vec()?;
    put(others, key, value)
}

/// A new key goes behind the others.
fn put(map: &mut IndexMap<Vec<u8>, Const>, key: Vec<u8>, value: Const) -> Result<(), Memory>
    requires { lookup (λ k. bytes_eq key.items k.items) map.old.entries ≡ None }
    ensures ok { OnOk result (map.new.entries ≡ map.old.entries ++ (key, value) ∷ []) }
    ensures err { OnErr result (map.new.entries ≡ map.old.entries) }
{
    map.insert(key, value)?;
    Ok(())
}
