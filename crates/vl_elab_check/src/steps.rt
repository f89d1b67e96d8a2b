//! Steps of the walk that have no others within them.
ghost use Rattle.std.specs.Prelude.{◌≡◌, ◌∷◌, ◌++◌, [], ℕ, List, None, IfOk, OnOk};
ghost use Rattle.vl_tree.specs.declared.source.Module.{Module as SpecModule};
ghost use Rattle.vl_tree.specs.ItemView.{block as block_of};
ghost use Rattle.vl_mean.specs.Declarations.{names_of};
ghost use Rattle.vl_mean.specs.Walk.{Place, Use, block_step, module_place, with_earlier};
ghost use Rattle.vl_elab_spec.specs.Items.{inner_meanings};
ghost use Rattle.vl_elab_spec.specs.Meanings.{item_names};
ghost use Rattle.vl_elab_spec.specs.Refused as refused;
ghost use Rattle.vl_elab_scope.specs.Alike.{Alike};
ghost use Rattle.vl_elab_spec.specs.Walked.{AreTotals, AreWalked};
ghost use Rattle.vl_elab_spec.specs.Within.{behind_head, front_steps, head_steps};
ghost use Rattle.vl_elab_check.specs.Standing.{IsHere, IsWithin};

use crate::connections::{walk_connections, walk_overrides};
use crate::headers::walk_headers;
use crate::passed::pass_item;
use crate::ports::walk_ports;
use crate::progress::Walk;
use crate::scopes::{Here, Used, connections_of, header_of, ports_of};
use crate::step::weighed;
use fv_text::Memory;
use std::alloc::Global;
use vl_elab_count::Added;
use vl_elab_decls::Inside;
use vl_elab_places::block_place;
use vl_elab_spec::ElabFault;
use vl_tree::{Block, Instance, Item, Module};

/// A block of a generate construct by itself, which is one node.
pub(crate) fn begin_block(walk: &mut Walk, block: &Block) -> Option<ElabFault>
    ensures path { walk.new.path ≡ walk.old.path }
    ensures walked { (ms : List SpecModule) (t : refused.Totals) (at : Place) → AreTotals walk.old.totals t
        → AreWalked ms t walk.new.totals (block_step at (block_of block.now) ∷ []) result }
{
    let added = Added { nodes: 1, names: 0 };
    weighed(None, added, block_place(block), &mut walk.totals)
}

/// Goes past an item: its labels, and the name of an instance, stand before what follows too.
pub(crate) fn pass(
    alloc: Global,
    part: &Item,
    inside: &Inside,
    here: &mut Here,
) -> Result<(), Memory>
    ensures { OnOk result ((at : Place) (path : List (List ℕ))
        → IsHere inside.now here.old path (with_earlier at (item_names part.now))
        → IsHere inside.now here.new path (with_earlier at (names_of part.now))) }
{
    pass_item(
        alloc,
        part,
        &inside.names,
        &mut here.earlier,
        &mut here.reached,
    )?;
    Ok(())
}

/// The head of a module.
pub(crate) fn head(
    walk: &mut Walk,
    module: &Module,
    used: &mut Used,
) -> Result<Option<ElabFault>, Memory>
    ensures path { OnOk result (walk.new.path ≡ walk.old.path) }
    ensures walked { IfOk result (λ g. (ms : List SpecModule) (t : refused.Totals) (u : Use) (text : List ℕ)
        (modules path : List (List ℕ))
        → AreTotals walk.old.totals t
        → IsHere used.old.inside used.old.here path (module_place module.now u text modules)
        → AreWalked ms t walk.new.totals (head_steps (module_place module.now u text modules) module.now u) g) }
    ensures numbers { OnOk result (used.new.inside.numbers ≡ used.old.inside.numbers) }
    ensures here { IfOk result (λ g. g ≡ None → (u : Use) (text : List ℕ) (modules path : List (List ℕ))
        → IsHere used.old.inside used.old.here path (module_place module.now u text modules)
        → IsHere used.new.inside used.new.here path
        (behind_head (module_place module.now u text modules) module.now)) }
{
    let parameters = header_of(&module.parameters);
    let fault = walk_headers(
        walk.alloc,
        parameters,
        &mut used.inside,
        &mut used.here.earlier,
        &mut used.here.reached,
        &used.here.given,
        &mut walk.totals,
    )?;
    if fault.is_some() {
        return Ok(fault);
    }
    Ok(walk_ports(
        walk.alloc,
        ports_of(&module.ports),
        &used.inside.names,
        &mut used.here.earlier,
        &mut used.here.reached,
        &mut walk.totals,
    )?)
}

/// What an instance gives to its module and joins to it.
fn front(
    walk: &mut Walk,
    module: &Module,
    instance: &Instance,
    inside: &Inside,
    used: &Used,
) -> Result<Option<ElabFault>, Memory>
    ensures path { OnOk result (walk.new.path ≡ walk.old.path) }
    ensures walked { IfOk result (λ g. (ms : List SpecModule) (t : refused.Totals) (at : Place) (u : Use)
        (text : List ℕ) (modules : List (List ℕ)) → AreTotals walk.old.totals t → IsWithin inside.now modules at
        → Alike used.now.inside.names (inner_meanings module.now u)
        → AreWalked ms t walk.new.totals (front_steps at module.now u text instance.now) g) }
{
    let fault = walk_overrides(
        walk,
        connections_of(&instance.overrides),
        module,
        &inside.names,
        &used.inside.names,
    )?;
    if fault.is_some() {
        return Ok(fault);
    }
    Ok(walk_connections(
        walk,
        instance.connections.as_slice(),
        module,
        inside,
        &used.inside.names,
    )?)
}

/// An instance up to the items of its module, which is entered.
pub(crate) fn open(
    walk: &mut Walk,
    module: &Module,
    instance: &Instance,
    inside: &Inside,
    used: &mut Used,
) -> Result<Option<ElabFault>, Memory>
    ensures path { OnOk result (walk.new.path ≡ walk.old.path) }
    ensures walked { IfOk result (λ g. (ms : List SpecModule) (t : refused.Totals) (at : Place) (u : Use)
        (text : List ℕ) (modules path : List (List ℕ)) → AreTotals walk.old.totals t → IsWithin inside.now modules at
        → ((other : List ℕ) → IsHere used.old.inside used.old.here path (module_place module.now u other modules))
        → AreWalked ms t walk.new.totals (front_steps at module.now u text instance.now
        ++ head_steps (module_place module.now u text modules) module.now u) g) }
    ensures numbers { OnOk result (used.new.inside.numbers ≡ used.old.inside.numbers) }
    ensures here { IfOk result (λ g. g ≡ None → (u : Use) (text : List ℕ) (modules path : List (List ℕ))
        → IsHere used.old.inside used.old.here path (module_place module.now u text modules)
        → IsHere used.new.inside used.new.here path
        (behind_head (module_place module.now u text modules) module.now)) }
{
    let fault = front(walk, module, instance, inside, used)?;
    if fault.is_some() {
        return Ok(fault);
    }
    Ok(head(walk, module, used)?)
}
