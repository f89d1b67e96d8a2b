//! What an instance gives to the parameters of its module.
ghost use Rattle.std.specs.Prelude.{◌≡◌, ℕ, List, None, IfOk, OnOk, bytes_eq};
ghost use Rattle.std.specs.Option.{option_copied};
ghost use Rattle.indexmap.specs.IndexMap.{insert_entry};
ghost use Rattle.vl_mean.specs.Scopes.{Scope};
ghost use Rattle.vl_mean.specs.Walk.{has_any, overrides_of};
ghost use Rattle.vl_elab_spec.specs.Items.{has_value};
ghost use Rattle.vl_elab_spec.specs.Meanings as meanings;
ghost use Rattle.vl_elab_scope.specs.Alike.{Alike};
ghost use Rattle.vl_elab_scope.specs.Texts.{or_else};
ghost use Rattle.vl_elab_const.specs.Given as spec;
ghost use Rattle.vl_elab_const.specs.Numbers.{HaveNumbers};

use fv_text::{Memory, Text};
use indexmap::IndexMap;
use std::alloc::Global;
use vl_elab_scope::{Names, context_of, known_expr};
use vl_tree::{Connection, Expr};

/// What an instance gives to a parameter: an expression without names, and whether it has a value. What isn't refused
/// has one, unless it names a constant whose own declaration is refused.
#[derive(Drop)]
pub struct Value {
    pub expr: Expr,
    pub has_value: bool,
}

/// Parameters with the values that they are given, seen as a map: `value_given` of specs/Given. Where nothing is given
/// there is no map.
#[derive(Drop)]
pub struct Given {
    alloc: Global,
    written: Option<Box<Written>>,
}

/// The values of some.
#[derive(Drop)]
pub(crate) struct Written {
    map: IndexMap<Vec<u8>, Value>,
}

impl Given {
    /// None is given anything.
    pub fn new(alloc: Global) -> Given
        ensures { (name : List ℕ) → spec.value_given result name ≡ None }
    {
        Given {
            alloc,
            written: None,
        }
    }

    /// None exactly where the name is given nothing.
    pub fn get(&self, name: &Text) -> Option<&Value>
        ensures { option_copied result ≡ spec.value_given self.now name.now }
    {
        value_among(&self.written, name)
    }

    /// Of two values of a name the first counts.
    fn add(&mut self, name: Text, value: Value) -> Result<(), Memory>
        ensures { OnOk result ((other : List ℕ) → spec.value_given self.new other
            ≡ or_else (spec.value_given self.old other) (spec.named_value name value other)) }
    {
        add_among(self.alloc, &mut self.written, name, value)
    }
}

fn value_in<'a>(written: &'a Written, name: &Text) -> Option<&'a Value>
    ensures { option_copied result ≡ spec.value_in written.now name.now }
{
    written.map.get(name.bytes())
}

fn value_among<'a>(written: &'a Option<Box<Written>>, name: &Text) -> Option<&'a Value>
    ensures { option_copied result ≡ spec.value_among written.now name.now }
{
    match written {
        None => None,
        Some(written) => value_in(written, name),
    }
}

fn none(alloc: Global) -> Written
    ensures { (name : List ℕ) → spec.value_in result name ≡ None }
{
    Written {
        map: IndexMap::new(alloc),
    }
}

/// One value.
fn only(alloc: Global, name: Text, value: Value) -> Result<Box<Written>, Memory>
    ensures { IfOk result (λ b. (other : List ℕ) → spec.value_in b.value other
        ≡ or_else None (spec.named_value name value other)) }
{
    let mut written = none(alloc);
    add_behind(&mut written, name, value)?;
    match Box::new(alloc, written) {
        Ok(written) => Ok(written),
        Err(_) => Err(Memory),
    }
}

fn add_among(
    alloc: Global,
    written: &mut Option<Box<Written>>,
    name: Text,
    value: Value,
) -> Result<(), Memory>
    ensures { OnOk result ((other : List ℕ) → spec.value_among written.new other
        ≡ or_else (spec.value_among written.old other) (spec.named_value name value other)) }
{
    match written {
        None => {
            *written = Some(only(alloc, name, value)?);
            Ok(())
        }
        Some(written) => add_behind(&mut **written, name, value),
    }
}

fn add_behind(written: &mut Written, name: Text, value: Value) -> Result<(), Memory>
    ensures { OnOk result ((other : List ℕ) → spec.value_in written.new other
        ≡ or_else (spec.value_in written.old other) (spec.named_value name value other)) }
{
    if written.map.get(name.bytes()).is_some() {
        return Ok(());
    }
    let key = name.into_vec()?;
    put(&mut written.map, key, value)
}

fn put(map: &mut IndexMap<Vec<u8>, Value>, key: Vec<u8>, value: Value) -> Result<(), Memory>
    ensures { OnOk result (map.new.entries
        ≡ insert_entry (λ a b. bytes_eq a.items b.items) map.old.entries key value) }
{
    match map.insert(key, value) {
        Ok(_) => Ok(()),
        Err(_) => Err(Memory),
    }
}

/// Whether an expression has a value, by what names mean; any has where that isn't told.
fn is_value(alloc: Global, value: &Expr, names: Option<&Names>) -> Result<bool, Memory>
    ensures { IfOk result (λ b. b ≡ spec.is_value (option_copied names.entry) value.now) }
{
    match names {
        None => Ok(true),
        Some(names) => {
            let context = context_of(alloc, value, names)?;
            Ok(context.size.is_some())
        }
    }
}

fn add_written(
    alloc: Global,
    written: &Connection,
    names: Option<&Names>,
    numbers: &Names,
    given: &mut Given,
) -> Result<(), Memory>
    ensures { OnOk result ((other : List ℕ) → spec.value_given given.new other
        ≡ or_else (spec.value_given given.old other)
        (spec.written_value (spec.is_value (option_copied names.entry)) numbers.now written.now.port written.now.value
        other)) }
{
    match &written.value {
        None => Ok(()),
        Some(value) => {
            let has_value = is_value(alloc, value, names)?;
            let expr = known_expr(alloc, value, numbers)?;
            given.add(written.port.copied(alloc)?, Value { expr, has_value })
        }
    }
}

fn all_written(
    alloc: Global,
    all: &[Connection],
    names: Option<&Names>,
    numbers: &Names,
) -> Result<Given, Memory>
    ensures { IfOk result (λ given. (name : List ℕ) → spec.value_given given name
        ≡ spec.first_value (spec.is_value (option_copied names.entry)) numbers.now all.now name) }
{
    let mut given = Given::new(alloc);
    for written in all {
        add_written(alloc, written, names, numbers, &mut given)?;
    }
    Ok(given)
}

/// What an instance gives to the parameters of its module, where constants have these numbers, and all that is given
/// has a value. Of two with one name the first counts; `.P()` gives none.
pub fn given_by(alloc: Global, all: &[Connection], numbers: &Names) -> Result<Given, Memory>
    ensures { IfOk result (λ given. (ss : List Scope) → HaveNumbers numbers.now ss
        → spec.IsGiven (spec.value_given given) (overrides_of has_any ss all.now)) }
{
    all_written(alloc, all, None, numbers)
}

/// The same while a design is judged. `names`: what names mean where the instance stands.
pub fn judged_by(
    alloc: Global,
    all: &[Connection],
    names: &Names,
    numbers: &Names,
) -> Result<Given, Memory>
    ensures { IfOk result (λ given. (known : List meanings.Names) (ss : List Scope)
        → Alike names.now known → HaveNumbers numbers.now ss
        → spec.IsGiven (spec.value_given given) (overrides_of (has_value known) ss all.now)) }
{
    all_written(alloc, all, Some(names), numbers)
}
