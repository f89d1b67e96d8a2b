//! Names that an item declares, one behind the other; a memory's words stand at its name.
ghost use Rattle.std.specs.Prelude.{◌≡◌, ◌≤◌, ◌∷◌, None, IfOk, OnOk, drop};
ghost use Rattle.vl_mean.specs.ConstantFaults.{capped};
ghost use Rattle.vl_mean.specs.Walk.{Place, item as item_step};
ghost use Rattle.vl_elab_spec.specs.NodePlaces.{name_place};
ghost use Rattle.vl_elab_scope.specs.Seen.{innermost};
ghost use Rattle.vl_elab_const.specs.Numbers.{HaveNumbers};
ghost use Rattle.vl_elab_count.specs.Counts.{name_count};
ghost use Rattle.vl_elab_places.specs.Passing as spec;

use crate::cursor::Cursor;
use fv_text::{Memory, Pos};
use std::alloc::Global;
use vl_elab_count::one_name;
use vl_elab_scope::Names;
use vl_tree::{DeclaredName, Item, ItemKind};

fn pass_words(
    alloc: Global,
    name: &DeclaredName,
    start: Cursor,
    numbers: &Names,
) -> Result<Cursor, Memory>
    ensures { IfOk result (λ k. k
        ≡ spec.moved (capped (name_count numbers.now name.now.words)) name.now.pos start) }
{
    let count = one_name(alloc, &name.words, numbers)?;
    Ok(start.moved(count, name.pos))
}

fn pass_all_words(
    alloc: Global,
    all: &[DeclaredName],
    start: Cursor,
    numbers: &Names,
) -> Result<Cursor, Memory>
    ensures { IfOk result (λ k. k ≡ spec.words_passed numbers.now all.now start) }
{
    let mut at = start;
    for name in all {
        at = pass_words(alloc, name, at, numbers)?;
    }
    Ok(at)
}

/// Their shapes are read in the scopes without what hides constants, which is innermost.
fn pass_words_around(
    alloc: Global,
    all: &[DeclaredName],
    start: Cursor,
    numbers: &mut Names,
) -> Result<Cursor, Memory>
    requires { numbers.old ≡ innermost numbers.old ∷ drop 1 numbers.old }
    ensures numbers { OnOk result (numbers.new ≡ numbers.old) }
    ensures behind { IfOk result (λ k. k ≡ spec.words_passed (drop 1 numbers.old) all.now start) }
{
    let hidden = numbers.take(alloc);
    let behind = pass_all_words(alloc, all, start, numbers)?;
    numbers.enter(hidden)?;
    Ok(behind)
}

fn pass_names(
    alloc: Global,
    item: &Item,
    start: Cursor,
    numbers: &mut Names,
) -> Result<Cursor, Memory>
    requires { numbers.old ≡ innermost numbers.old ∷ drop 1 numbers.old }
    ensures numbers { OnOk result (numbers.new ≡ numbers.old) }
    ensures behind { IfOk result (λ k. k ≡ spec.names_passed (drop 1 numbers.old) item.now start) }
{
    match &item.kind {
        ItemKind::Declaration(declaration) => {
            pass_words_around(alloc, declaration.names.as_slice(), start, numbers)
        }
        ItemKind::Integer(all) => pass_words_around(alloc, all.as_slice(), start, numbers),
        ItemKind::Genvar(_) | ItemKind::Parameter(_, _) | ItemKind::Assign(_) => Ok(start),
        ItemKind::Always(_, _) | ItemKind::Initial(_) | ItemKind::Instance(_) => Ok(start),
        ItemKind::Generate(_) | ItemKind::For(_, _) => Ok(start),
        ItemKind::If(_, _, None) | ItemKind::If(_, _, Some(_)) => Ok(start),
    }
}

/// Where the name stands that an item declares behind so many others of it. `numbers`: the numbers of constants at it,
/// of which the innermost names say what hides constants in its scope.
pub(crate) fn name_behind(
    alloc: Global,
    item: &Item,
    before: u64,
    numbers: &mut Names,
) -> Result<Option<Pos>, Memory>
    requires few { before ≤ 200000 }
    requires inside { numbers.old ≡ innermost numbers.old ∷ drop 1 numbers.old }
    ensures numbers { OnOk result (numbers.new ≡ numbers.old) }
    ensures place { IfOk result (λ o. (at : Place) → HaveNumbers (drop 1 numbers.old) at.around
        → o ≡ name_place before (item_step at item.now)) }
{
    let start = Cursor::new(before);
    let behind = pass_names(alloc, item, start, numbers)?;
    Ok(behind.found)
}
