//! Items by themselves.
ghost use Rattle.std.specs.Prelude.{◌≡◌, ◌++◌, OnOk};
ghost use Rattle.vl_tree.specs.Item as item_spec;
ghost use Rattle.vl_mean.specs.Declarations.{declared_by};
ghost use Rattle.vl_mean.specs.Parts as parts;
ghost use Rattle.vl_mean.specs.Walk.{Place};
ghost use Rattle.vl_elab_emit.specs.Behind as spec;
ghost use Rattle.vl_elab_emit.specs.OwnParts.{own_parts, own_placed, placed_values};

use crate::blocks::{write_assignments, write_block, write_initial};
use crate::declaring::write_declarations;
use crate::values::write_values;
use fv_text::Memory;
use std::alloc::Global;
use vl_elab_draft::{Draft, Path, Scopes};
use vl_size::Decl;
use vl_tree::{DeclaredName, Item, ItemKind, NetKind};

/// Declarations first, and then the values in them.
fn write_declared(
    alloc: Global,
    kind: NetKind,
    path: &Path,
    decls: &[Decl],
    all: &[DeclaredName],
    scopes: &Scopes,
    draft: &mut Draft,
) -> Result<(), Memory>
    requires { spec.MayStandBehind draft.old
        (parts.declares_all path.now decls.now ++ parts.values_of scopes.now kind all.now) }
    ensures { OnOk result (spec.StandBehind draft.old (spec.followed_by
        (spec.unplaced (parts.declares_all path.now decls.now)) (placed_values scopes.now kind all.now)) draft.new) }
{
    write_declarations(alloc, path, scopes, decls, draft)?;
    write_values(alloc, kind, all, scopes, draft)
}

/// Writes the parts of an item by itself, in their places; what is in an instance, in a loop or in an `if` isn't of
/// these. `path`: that of the innermost scope, `decls`: what the item declares, by the names that are written.
#[tactic(auto, using(crate::proofs::Standing::nothing_more))]
pub fn write_item(
    alloc: Global,
    path: &Path,
    decls: &[Decl],
    item: &Item,
    scopes: &Scopes,
    draft: &mut Draft,
) -> Result<(), Memory>
    requires { spec.MayStandBehind draft.old (own_parts scopes.now path.now decls.now item.now) }
    ensures { OnOk result
        (spec.StandBehind draft.old (own_placed scopes.now path.now decls.now item.now) draft.new) }
{
    let pos = item.pos;
    match &item.kind {
        ItemKind::Declaration(declaration) => {
            let names = declaration.names.as_slice();
            write_declared(alloc, declaration.net, path, decls, names, scopes, draft)
        }
        ItemKind::Integer(all) => {
            write_declared(
                alloc,
                NetKind::Reg,
                path,
                decls,
                all.as_slice(),
                scopes,
                draft,
            )
        }
        ItemKind::Assign(all) => write_assignments(alloc, pos, all.as_slice(), scopes, draft),
        ItemKind::Always(event, stmt) => write_block(alloc, pos, &event.kind, stmt, scopes, draft),
        ItemKind::Initial(stmt) => write_initial(alloc, stmt, scopes, draft),
        ItemKind::Genvar(_) | ItemKind::Parameter(_, _) | ItemKind::Instance(_) => Ok(()),
        ItemKind::Generate(_) | ItemKind::For(_, _) => Ok(()),
        ItemKind::If(_, _, None) | ItemKind::If(_, _, Some(_)) => Ok(()),
    }
}

/// The parts of an item by itself are those of its step.
pub fn items_have_their_parts()
    ensures { (at : Place) (x : item_spec.Item)
        → parts.item_parts at x ≡ own_parts at.scopes at.path (declared_by at.around x) x }
{}
