//! What an item adds.
ghost use Rattle.std.specs.Prelude.{◌≡◌, ◌∷◌, List, IfOk, OnOk, drop};
ghost use Rattle.vl_mean.specs.ConstantFaults.{capped};
ghost use Rattle.vl_mean.specs.Declarations.{declared_by};
ghost use Rattle.vl_mean.specs.FlatLaw.{all_names_count};
ghost use Rattle.vl_mean.specs.Scopes.{Scope};
ghost use Rattle.vl_mean.specs.Walk.{Place};
ghost use Rattle.vl_elab_spec.specs.Counts as counts;
ghost use Rattle.vl_elab_spec.specs.Meanings.{meanings_at};
ghost use Rattle.vl_elab_scope.specs.Alike.{Alike};
ghost use Rattle.vl_elab_scope.specs.Seen.{innermost};
ghost use Rattle.vl_elab_const.specs.Numbers.{HaveNumbers};
ghost use Rattle.vl_elab_count.specs.Parts.{TurnsHave};

use crate::count_items::item_nodes;
use crate::names::declared_names;
use crate::turns::loop_nodes;
use fv_text::Memory;
use std::alloc::Global;
use vl_elab_scope::Names;
use vl_tree::{Item, ItemKind};

/// Nodes and names.
#[derive(Clone, Copy)]
pub struct Added {
    pub nodes: u64,
    pub names: u64,
}

fn turns_of(
    alloc: Global,
    item: &Item,
    names: &mut Names,
    numbers: &mut Names,
) -> Result<u64, Memory>
    ensures names { OnOk result (names.new ≡ names.old) }
    ensures numbers { OnOk result (numbers.new ≡ numbers.old) }
    ensures count { IfOk result (λ n. (at : Place) → Alike names.old (meanings_at at)
        → HaveNumbers numbers.old at.scopes → TurnsHave at item.now n) }
{
    match &item.kind {
        ItemKind::For(head, _) => loop_nodes(alloc, head, names, numbers),
        ItemKind::If(_, _, None) | ItemKind::If(_, _, Some(_)) | ItemKind::Generate(_) => Ok(0),
        ItemKind::Declaration(_) | ItemKind::Integer(_) | ItemKind::Genvar(_) => Ok(0),
        ItemKind::Parameter(_, _) | ItemKind::Assign(_) | ItemKind::Always(_, _) => Ok(0),
        ItemKind::Initial(_) | ItemKind::Instance(_) => Ok(0),
    }
}

/// What an item by itself adds: of a loop its head with all its turns, of an `if` its condition.
/// `names`: what names mean at it; `numbers`: the numbers of constants there, refused or not; the innermost names say
/// what hides constants in its scope.
pub fn item_added(
    alloc: Global,
    item: &Item,
    names: &mut Names,
    numbers: &mut Names,
) -> Result<Added, Memory>
    requires { numbers.old ≡ innermost numbers.old ∷ drop 1 numbers.old }
    ensures meanings { OnOk result (names.new ≡ names.old) }
    ensures numbers { OnOk result (numbers.new ≡ numbers.old) }
    ensures nodes { IfOk result (λ added. (at : Place) → Alike names.old (meanings_at at)
        → HaveNumbers numbers.old at.scopes → added.nodes ≡ capped (counts.item_nodes at item.now)) }
    ensures names { IfOk result (λ added. (ss : List Scope) → HaveNumbers (drop 1 numbers.old) ss
        → added.names ≡ capped (all_names_count (declared_by ss item.now))) }
{
    let declared = declared_names(alloc, item, numbers)?;
    let turns = turns_of(alloc, item, names, numbers)?;
    Ok(Added {
        nodes: item_nodes(item, turns),
        names: declared,
    })
}
