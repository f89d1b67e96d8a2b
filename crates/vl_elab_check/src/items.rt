//! Items by themselves: of a loop its head, of an `if` its condition, of an instance what it names.
ghost use Rattle.std.specs.Prelude.{◌≡◌, ◌++◌, ◌∷◌, [], ℕ, List, IfOk, OnOk};
ghost use Rattle.vl_mean.specs.Walk.{Place, item as item_step, with_earlier};
ghost use Rattle.vl_elab_spec.specs.Items as items;
ghost use Rattle.vl_elab_spec.specs.Meanings.{item_names, meanings_at};
ghost use Rattle.vl_elab_spec.specs.Refused as refused;
ghost use Rattle.vl_elab_spec.specs.Refused.{lowest};
ghost use Rattle.vl_elab_scope.specs.Alike.{Alike};
ghost use Rattle.vl_elab_names.specs.Known.{AreNames};
ghost use Rattle.vl_elab_names.specs.Table.{AreModules};
ghost use Rattle.vl_elab_params.specs.Reached.{AreAround, IsReached};
ghost use Rattle.vl_elab_spec.specs.Walked.{AreTotals, AreWalked};
ghost use Rattle.vl_elab_check.specs.Here.{IsAt, own_parameters};
ghost use Rattle.vl_elab_check.specs.Standing.{HasScope, IsHere};

use crate::passed::pass_declared;
use crate::progress::{Source, Walk};
use crate::scopes::Here;
use crate::step::weighed;
use fv_text::Memory;
use vl_elab_check_instance::instance_fault;
use vl_elab_check_scope::{
    always_fault, assign_fault, declaration_fault, genvar_names_fault, if_fault,
    initial_block_fault, integer_fault, loop_fault, parameters_fault,
};
use vl_elab_count::item_added;
use vl_elab_decls::Inside;
use vl_elab_places::item_place;
use vl_elab_spec::ElabFault;
use vl_tree::{Item, ItemKind};

/// An item but for the size of the design. The names of nets, variables, genvars and parameters stand behind those
/// before it then; its parameters are reached.
fn item_fault(
    source: &Source<'_>,
    walk: &Walk,
    inside: &mut Inside,
    here: &mut Here,
    item: &Item,
) -> Result<Option<ElabFault>, Memory>
    requires { AreModules source.now.table.now source.now.modules.now }
    ensures names { OnOk result (inside.new.names ≡ inside.old.names) }
    ensures numbers { OnOk result (inside.new.numbers ≡ inside.old.numbers) }
    ensures clocks { OnOk result (inside.new.clocks ≡ inside.old.clocks) }
    ensures around { OnOk result (inside.new.around ≡ inside.old.around) }
    ensures given { OnOk result (here.new.given ≡ here.old.given) }
    ensures fault { IfOk result (λ g. (at : Place)
        → IsAt inside.old.names inside.old.numbers here.old.earlier here.old.reached here.old.given at
        → AreAround inside.old.around at → walk.now.path ≡ at.modules
        → g ≡ lowest (items.item_refusals source.now.modules.now at item.now)) }
    ensures earlier { OnOk result ((before : List (List ℕ)) → AreNames here.old.earlier before
        → AreNames here.new.earlier (before ++ item_names item.now)) }
    ensures reached { OnOk result ((at : Place) (before : List (List ℕ)) → Alike inside.old.names (meanings_at at)
        → IsReached here.old.reached at before
        → IsReached here.new.reached at (before ++ own_parameters item.now)) }
{
    let alloc = walk.alloc;
    let names = &mut inside.names;
    let earlier = &mut here.earlier;
    match &item.kind {
        ItemKind::Declaration(declaration) => {
            let attributes = item.attributes.as_slice();
            declaration_fault(alloc, attributes, declaration, names, earlier)
        }
        ItemKind::Integer(list) => {
            let attributes = item.attributes.as_slice();
            integer_fault(alloc, attributes, list.as_slice(), names, earlier)
        }
        ItemKind::Genvar(list) => genvar_names_fault(alloc, list.as_slice(), item.pos, earlier),
        ItemKind::Parameter(kind, list) => {
            let given = &here.given;
            let reached = &mut here.reached;
            parameters_fault(
                alloc,
                *kind,
                list.as_slice(),
                given,
                inside,
                earlier,
                reached,
            )
        }
        ItemKind::Assign(list) => assign_fault(alloc, list.as_slice(), names),
        ItemKind::Always(event, stmt) => always_fault(alloc, event, stmt, names),
        ItemKind::Initial(stmt) => initial_block_fault(alloc, stmt, names),
        ItemKind::Instance(instance) => {
            let table = source.table;
            let path = &walk.path;
            instance_fault(
                alloc,
                table,
                source.modules,
                item.pos,
                instance,
                path,
                earlier,
            )
        }
        ItemKind::Generate(_) => Ok(None),
        ItemKind::For(head, _) => {
            let numbers = &mut inside.numbers;
            loop_fault(alloc, item, item.pos, head, names, numbers, earlier)
        }
        ItemKind::If(condition, _, None) => if_fault(alloc, item, condition, names, earlier),
        ItemKind::If(condition, _, Some(_)) => if_fault(alloc, item, condition, names, earlier),
    }
}

/// An item by itself: which refusal is answered, with the size of the design. The nets, variables, genvars and
/// parameters that it declares stand before what follows then.
pub(crate) fn walk_item(
    source: &Source<'_>,
    walk: &mut Walk,
    inside: &mut Inside,
    here: &mut Here,
    item: &Item,
) -> Result<Option<ElabFault>, Memory>
    requires table { AreModules source.now.table.now source.now.modules.now }
    requires scope { HasScope inside.old }
    ensures inside { OnOk result (inside.new ≡ inside.old) }
    ensures path { OnOk result (walk.new.path ≡ walk.old.path) }
    ensures here { OnOk result ((at : Place) → IsHere inside.old here.old walk.old.path at
        → IsHere inside.new here.new walk.new.path (with_earlier at (item_names item.now))) }
    ensures walked { IfOk result (λ g. (at : Place) (t : refused.Totals)
        → IsHere inside.old here.old walk.old.path at → AreTotals walk.old.totals t
        → AreWalked source.now.modules.now t walk.new.totals (item_step at item.now ∷ []) g) }
{
    let alloc = walk.alloc;
    let added = item_added(alloc, item, &mut inside.names, &mut inside.numbers)?;
    let pos = item_place(
        alloc,
        item,
        added,
        &mut inside.names,
        &mut inside.numbers,
        walk.totals,
    )?;
    let fault = item_fault(source, walk, inside, here, item)?;
    pass_declared(alloc, item, &inside.names, &mut here.reached)?;
    Ok(weighed(fault, added, pos, &mut walk.totals))
}
