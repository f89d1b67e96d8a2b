//! Where a declared name stands twice in its scope.
ghost use Rattle.std.specs.Prelude.{◌≡◌, ◌++◌, ℕ, List, map, IfOk, OnOk};
ghost use Rattle.vl_elab_spec.specs.declared.elab_fault.ElabFault.TheVariants as f;
ghost use Rattle.vl_elab_spec.specs.Expressions.{refused_if};
ghost use Rattle.vl_elab_spec.specs.Items as items;
ghost use Rattle.vl_elab_spec.specs.Refused.{lower_of, lowest};
ghost use Rattle.vl_elab_names.specs.Known as known;
ghost use Rattle.vl_elab_check_scope.specs.Parts as spec;

use fv_text::{Memory, Pos, Text};
use std::alloc::Global;
use vl_elab_check_expr::{first_of, twice_if};
use vl_elab_names::NameSet;
use vl_elab_spec::ElabFault;
use vl_tree::DeclaredName;

/// One name more: whether it stands there before, behind what is found so far.
fn with_name(
    alloc: Global,
    fault: Option<ElabFault>,
    text: &Text,
    pos: Pos,
    earlier: &mut NameSet,
) -> Result<Option<ElabFault>, Memory>
    ensures fault { IfOk result (λ g. g ≡ lower_of fault (lowest (refused_if (known.contains earlier.old text.now)
        (f.Twice text.now pos)))) }
    ensures names { OnOk result ((other : List ℕ) → known.contains earlier.new other
        ≡ spec.with_name (known.contains earlier.old) text.now other) }
{
    let found = twice_if(alloc, earlier.contains(text), text, pos)?;
    earlier.add(text.copied(alloc)?)?;
    Ok(first_of(fault, found))
}

fn all_declared(
    alloc: Global,
    all: &[DeclaredName],
    earlier: &mut NameSet,
) -> Result<Option<ElabFault>, Memory>
    ensures fault { IfOk result (λ g. g
        ≡ lowest (spec.twice_by (known.contains earlier.old) (items.placed_names all.now))) }
    ensures names { OnOk result (known.contains earlier.new
        ≡ spec.with_names (known.contains earlier.old) (map (λ x. x.name) all.now)) }
{
    let mut fault = None;
    for name in all {
        fault = with_name(alloc, fault, &name.name, name.pos, earlier)?;
    }
    Ok(fault)
}

/// Of declared names those that stand before them in their scope, or twice among them: of all such refusals the one at
/// the earliest place. None exactly where none does. The names stand behind those before them then.
pub fn declared_twice(
    alloc: Global,
    all: &[DeclaredName],
    earlier: &mut NameSet,
) -> Result<Option<ElabFault>, Memory>
    ensures fault { IfOk result (λ g. (names : List (List ℕ)) → known.AreNames earlier.old names
        → g ≡ lowest (items.twice names (items.placed_names all.now))) }
    ensures names { OnOk result ((names : List (List ℕ)) → known.AreNames earlier.old names
        → known.AreNames earlier.new (names ++ map (λ x. x.name) all.now)) }
{
    all_declared(alloc, all, earlier)
}

fn all_genvars(
    alloc: Global,
    all: &[Text],
    pos: Pos,
    earlier: &mut NameSet,
) -> Result<Option<ElabFault>, Memory>
    ensures fault { IfOk result (λ g. g
        ≡ lowest (spec.twice_by (known.contains earlier.old) (map (λ text. (text, pos)) all.now))) }
    ensures names { OnOk result (known.contains earlier.new ≡ spec.with_names (known.contains earlier.old) all.now) }
{
    let mut fault = None;
    for text in all {
        fault = with_name(alloc, fault, text, pos, earlier)?;
    }
    Ok(fault)
}

/// The same of genvars, all at one place.
pub(crate) fn genvars_twice(
    alloc: Global,
    all: &[Text],
    pos: Pos,
    earlier: &mut NameSet,
) -> Result<Option<ElabFault>, Memory>
    ensures fault { IfOk result (λ g. (names : List (List ℕ)) → known.AreNames earlier.old names
        → g ≡ lowest (items.twice names (map (λ text. (text, pos)) all.now))) }
    ensures names { OnOk result ((names : List (List ℕ)) → known.AreNames earlier.old names
        → known.AreNames earlier.new (names ++ all.now)) }
{
    all_genvars(alloc, all, pos, earlier)
}
