//! Names that an item declares; a memory's words count beside its name.
ghost use Rattle.std.specs.Prelude.{◌≡◌, ◌∷◌, List, Some, IfOk, OnOk, drop};
ghost use Rattle.vl_mean.specs.ConstantFaults.{capped};
ghost use Rattle.vl_mean.specs.Declarations.{declared_by};
ghost use Rattle.vl_mean.specs.FlatLaw.{all_names_count};
ghost use Rattle.vl_mean.specs.Scopes.{Scope};
ghost use Rattle.vl_elab_scope.specs.Seen.{innermost};
ghost use Rattle.vl_elab_const.specs.Numbers.{HaveNumbers};
ghost use Rattle.vl_elab_count.specs.Counts as spec;

use crate::bounds::span_between;
use fv_text::Memory;
use std::alloc::Global;
use vl_elab_const::own_bound;
use vl_elab_scope::Names;
use vl_mean::widths::plus;
use vl_tree::{DeclaredName, Item, ItemKind, Range};

fn range_words(alloc: Global, range: &Range, numbers: &Names) -> Result<u64, Memory>
    ensures { IfOk result (λ n. n ≡ capped (spec.name_count numbers.now (Some range.now))) }
{
    let left = own_bound(alloc, &range.left, numbers)?;
    let right = own_bound(alloc, &range.right, numbers)?;
    Ok(plus(span_between(left, right), 1))
}

/// A name, with the words of a memory.
pub fn one_name(alloc: Global, words: &Option<Range>, numbers: &Names) -> Result<u64, Memory>
    ensures { IfOk result (λ n. n ≡ capped (spec.name_count numbers.now words.now)) }
{
    match words {
        None => Ok(1),
        Some(range) => range_words(alloc, range, numbers),
    }
}

#[tactic(auto, using(crate::proofs::CountSums::sums))]
fn all_names(alloc: Global, all: &[DeclaredName], numbers: &Names) -> Result<u64, Memory>
    ensures { IfOk result (λ n. n ≡ capped (spec.names_count numbers.now all.now)) }
{
    let mut total = 0;
    let mut place = all.len();
    while place > 0 {
        place -= 1;
        let here = one_name(alloc, &all[place].words, numbers)?;
        total = plus(here, total);
    }
    Ok(total)
}

/// Their shapes are read in the scopes without what hides constants, which is innermost.
fn names_around(alloc: Global, all: &[DeclaredName], numbers: &mut Names) -> Result<u64, Memory>
    requires { numbers.old ≡ innermost numbers.old ∷ drop 1 numbers.old }
    ensures numbers { OnOk result (numbers.new ≡ numbers.old) }
    ensures count { IfOk result (λ n. n ≡ capped (spec.names_count (drop 1 numbers.old) all.now)) }
{
    let hidden = numbers.take(alloc);
    let total = all_names(alloc, all, numbers)?;
    numbers.enter(hidden)?;
    Ok(total)
}

fn item_names(alloc: Global, item: &Item, numbers: &mut Names) -> Result<u64, Memory>
    requires { numbers.old ≡ innermost numbers.old ∷ drop 1 numbers.old }
    ensures numbers { OnOk result (numbers.new ≡ numbers.old) }
    ensures count { IfOk result (λ n. n ≡ capped (spec.item_count (drop 1 numbers.old) item.now)) }
{
    match &item.kind {
        ItemKind::Declaration(declaration) => {
            names_around(alloc, declaration.names.as_slice(), numbers)
        }
        ItemKind::Integer(all) => names_around(alloc, all.as_slice(), numbers),
        ItemKind::Genvar(_) | ItemKind::Parameter(_, _) | ItemKind::Assign(_) => Ok(0),
        ItemKind::Always(_, _) | ItemKind::Initial(_) | ItemKind::Instance(_) => Ok(0),
        ItemKind::Generate(_) | ItemKind::For(_, _) => Ok(0),
        ItemKind::If(_, _, None) | ItemKind::If(_, _, Some(_)) => Ok(0),
    }
}

/// The names of nets and variables of an item with the words of memories. `numbers`: the numbers of constants at it,
/// of which the innermost names say what hides constants in its scope.
pub(crate) fn declared_names(alloc: Global, item: &Item, numbers: &mut Names) -> Result<u64, Memory>
    requires { numbers.old ≡ innermost numbers.old ∷ drop 1 numbers.old }
    ensures numbers { OnOk result (numbers.new ≡ numbers.old) }
    ensures count { IfOk result (λ n. (ss : List Scope) → HaveNumbers (drop 1 numbers.old) ss
        → n ≡ capped (all_names_count (declared_by ss item.now))) }
{
    item_names(alloc, item, numbers)
}
