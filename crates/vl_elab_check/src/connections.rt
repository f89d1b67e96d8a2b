//! What an instance gives to the parameters of its module and joins to its ports.
ghost use Rattle.std.specs.Prelude.{◌≡◌, ◌+◌, ◌++◌, ◌∷◌, [], ℕ, List, IfOk, OnOk};
ghost use Rattle.vl_tree.specs.declared.source.Module.{Module as SpecModule};
ghost use Rattle.vl_mean.specs.ConstantFaults.{capped};
ghost use Rattle.vl_mean.specs.Scopes.{Scope};
ghost use Rattle.vl_mean.specs.Walk.{Place, Use, connection, connection_steps, override, override_steps};
ghost use Rattle.vl_elab_spec.specs.Counts as counts;
ghost use Rattle.vl_elab_spec.specs.Items.{inner_meanings};
ghost use Rattle.vl_elab_spec.specs.Meanings.{meanings_at};
ghost use Rattle.vl_elab_spec.specs.Refused as refused;
ghost use Rattle.vl_elab_scope.specs.Alike.{Alike};
ghost use Rattle.vl_elab_names.specs.Known.{AreNames, contains};
ghost use Rattle.vl_elab_decls.specs.Stands.{Stands};
ghost use Rattle.vl_elab_check_instance.specs.Parameters.{AreParametersOf};
ghost use Rattle.vl_elab_check_instance.specs.Ports.{AreDirectionsOf};
ghost use Rattle.vl_elab_spec.specs.Walked.{AreTotals, AreWalked};

use crate::passed::add_name;
use crate::progress::Walk;
use crate::step::weighed;
use fv_text::Memory;
use vl_elab_check_instance::{
    ParameterTable, PortTable, connection_step_fault, override_step_fault,
};
use vl_elab_count::{Added, optional_nodes};
use vl_elab_decls::Inside;
use vl_elab_names::NameSet;
use vl_elab_places::given_place;
use vl_elab_scope::Names;
use vl_elab_spec::ElabFault;
use vl_mean::widths::plus;
use vl_tree::{Connection, Expr, Module};

#[tactic(auto, using(vl_elab_count::proofs::CountSums::sums))]
fn value_nodes(value: &Option<Expr>) -> u64
    ensures { result ≡ capped (counts.value_nodes value.now + 1) }
{
    plus(optional_nodes(value), 1)
}

fn walk_override(
    walk: &mut Walk,
    parameters: &ParameterTable,
    module: &Module,
    given: &Connection,
    names: &Names,
    inner: &Names,
    earlier: &mut NameSet,
) -> Result<Option<ElabFault>, Memory>
    requires { AreParametersOf parameters.now module.now }
    ensures path { OnOk result (walk.new.path ≡ walk.old.path) }
    ensures walked { IfOk result (λ g. (ms : List SpecModule) (at : Place) (u : Use) (t : refused.Totals)
        (before : List (List ℕ)) → Alike names.now (meanings_at at) → Alike inner.now (inner_meanings module.now u)
        → AreNames earlier.old before → AreTotals walk.old.totals t
        → AreWalked ms t walk.new.totals (override at module.now u before given.now ∷ []) g) }
    ensures earlier { OnOk result ((before : List (List ℕ)) → AreNames earlier.old before
        → AreNames earlier.new (before ++ given.now.port ∷ [])) }
{
    let alloc = walk.alloc;
    let fault = override_step_fault(alloc, parameters, module, given, names, inner, earlier)?;
    add_name(alloc, &given.port, earlier)?;
    let added = Added {
        nodes: value_nodes(&given.value),
        names: 0,
    };
    let pos = given_place(given.pos, &given.value, added, walk.totals);
    Ok(weighed(fault, added, pos, &mut walk.totals))
}

/// What an instance gives to the parameters of its module: the first refusal. None exactly where none is refused; then
/// all are counted. `names`: what names mean where the instance stands; `inner`: what they mean in the module.
pub(crate) fn walk_overrides(
    walk: &mut Walk,
    all: &[Connection],
    module: &Module,
    names: &Names,
    inner: &Names,
) -> Result<Option<ElabFault>, Memory>
    ensures path { OnOk result (walk.new.path ≡ walk.old.path) }
    ensures walked { IfOk result (λ g. (ms : List SpecModule) (at : Place) (u : Use) (t : refused.Totals)
        → Alike names.now (meanings_at at) → Alike inner.now (inner_meanings module.now u)
        → AreTotals walk.old.totals t
        → AreWalked ms t walk.new.totals (override_steps at module.now u [] all.now) g) }
{
    if all.is_empty() {
        return Ok(None);
    }
    let parameters = ParameterTable::new(walk.alloc, module)?;
    let mut earlier = NameSet::new(walk.alloc);
    for given in all {
        let found = walk_override(walk, &parameters, module, given, names, inner, &mut earlier)?;
        if found.is_some() {
            return Ok(found);
        }
    }
    Ok(None)
}

fn walk_connection(
    walk: &mut Walk,
    ports: &PortTable,
    given: &Connection,
    inside: &Inside,
    inner: &Names,
    earlier: &mut NameSet,
) -> Result<Option<ElabFault>, Memory>
    ensures path { OnOk result (walk.new.path ≡ walk.old.path) }
    ensures walked { IfOk result (λ g. (ms : List SpecModule) (at : Place) (m : SpecModule) (u : Use)
        (within : List Scope) (t : refused.Totals) (before : List (List ℕ)) → AreDirectionsOf ports.now m
        → Stands inside.now.names inside.now.numbers (contains inside.now.clocks) (meanings_at at) at.scopes
        → Alike inner.now (inner_meanings m u) → AreNames earlier.old before → AreTotals walk.old.totals t
        → AreWalked ms t walk.new.totals (connection at m u within before given.now ∷ []) g) }
    ensures earlier { OnOk result ((before : List (List ℕ)) → AreNames earlier.old before
        → AreNames earlier.new (before ++ given.now.port ∷ [])) }
{
    let alloc = walk.alloc;
    let fault = connection_step_fault(
        alloc,
        ports,
        given,
        &inside.names,
        &inside.numbers,
        &inside.clocks,
        inner,
        earlier,
    )?;
    add_name(alloc, &given.port, earlier)?;
    let added = Added {
        nodes: value_nodes(&given.value),
        names: 0,
    };
    let pos = given_place(given.pos, &given.value, added, walk.totals);
    Ok(weighed(fault, added, pos, &mut walk.totals))
}

/// The same of what it joins to the ports. `inside`: what is known where it stands.
pub(crate) fn walk_connections(
    walk: &mut Walk,
    all: &[Connection],
    module: &Module,
    inside: &Inside,
    inner: &Names,
) -> Result<Option<ElabFault>, Memory>
    ensures path { OnOk result (walk.new.path ≡ walk.old.path) }
    ensures walked { IfOk result (λ g. (ms : List SpecModule) (at : Place) (u : Use) (within : List Scope)
        (t : refused.Totals)
        → Stands inside.now.names inside.now.numbers (contains inside.now.clocks) (meanings_at at) at.scopes
        → Alike inner.now (inner_meanings module.now u) → AreTotals walk.old.totals t
        → AreWalked ms t walk.new.totals (connection_steps at module.now u within [] all.now) g) }
{
    if all.is_empty() {
        return Ok(None);
    }
    let ports = PortTable::new(walk.alloc, module)?;
    let mut earlier = NameSet::new(walk.alloc);
    for given in all {
        let found = walk_connection(walk, &ports, given, inside, inner, &mut earlier)?;
        if found.is_some() {
            return Ok(found);
        }
    }
    Ok(None)
}
