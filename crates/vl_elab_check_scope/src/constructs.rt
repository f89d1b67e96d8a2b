//! Heads of generate loops and conditions of generate `if`s.
ghost use Rattle.std.specs.Prelude.{◌≡◌, ◌++◌, ℕ, List, true, IfOk, OnOk};
ghost use Rattle.vl_mean.specs.Walk.{Place};
ghost use Rattle.vl_elab_spec.specs.Expressions.{own_refusals};
ghost use Rattle.vl_elab_spec.specs.Items as items;
ghost use Rattle.vl_elab_spec.specs.Meanings as meanings;
ghost use Rattle.vl_elab_spec.specs.Meanings.{meaning_in, meanings_at};
ghost use Rattle.vl_elab_spec.specs.Refused.{lowest};
ghost use Rattle.vl_elab_scope.specs.Alike.{Alike};
ghost use Rattle.vl_elab_const.specs.Numbers.{HaveNumbers};
ghost use Rattle.vl_elab_names.specs.Known.{AreNames};

use crate::labels::labels_fault;
use fv_text::{Memory, Pos};
use std::alloc::Global;
use vl_elab_check_expr::{first_of, own_fault};
use vl_elab_check_item::head_fault;
use vl_elab_names::NameSet;
use vl_elab_scope::Names;
use vl_elab_spec::ElabFault;
use vl_tree::{Expr, Item, LoopHead};

/// A loop by its head, with all its turns. `item`: the whole construct.
pub fn loop_fault(
    alloc: Global,
    item: &Item,
    pos: Pos,
    head: &LoopHead,
    names: &mut Names,
    numbers: &mut Names,
    earlier: &NameSet,
) -> Result<Option<ElabFault>, Memory>
    ensures names { OnOk result (names.new ≡ names.old) }
    ensures numbers { OnOk result (numbers.new ≡ numbers.old) }
    ensures fault { IfOk result (λ g. (at : Place) → Alike names.old (meanings_at at)
        → HaveNumbers numbers.old at.scopes → AreNames earlier.now at.earlier
        → g ≡ lowest (items.labels_twice at.earlier (items.placed_labels item.now)
        ++ items.head_refusals at pos head.now (meaning_in (meanings_at at) head.now.variable))) }
{
    let labels = labels_fault(alloc, item, earlier)?;
    let own = head_fault(alloc, pos, head, names, numbers)?;
    Ok(first_of(labels, own))
}

/// An `if` by its condition. `item`: the whole construct.
pub fn if_fault(
    alloc: Global,
    item: &Item,
    condition: &Expr,
    names: &Names,
    earlier: &NameSet,
) -> Result<Option<ElabFault>, Memory>
    ensures { IfOk result (λ g. (known : List meanings.Names) (before : List (List ℕ)) → Alike names.now known
        → AreNames earlier.now before
        → g ≡ lowest (items.labels_twice before (items.placed_labels item.now)
        ++ own_refusals known true condition.now)) }
{
    let labels = labels_fault(alloc, item, earlier)?;
    let own = own_fault(alloc, condition, true, names)?;
    Ok(first_of(labels, own))
}
