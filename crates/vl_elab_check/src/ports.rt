//! The ports of a module.
ghost use Rattle.std.specs.Prelude.{◌≡◌, ◌+◌, ◌++◌, ◌∷◌, [], ℕ, List, None, IfOk, OnOk};
ghost use Rattle.std.specs.Option.{option_copied};
ghost use Rattle.vl_tree.specs.declared.source.Module.{Module};
ghost use Rattle.vl_mean.specs.ConstantFaults.{capped};
ghost use Rattle.vl_mean.specs.Declarations.{full_port, full_ports};
ghost use Rattle.vl_mean.specs.Walk.{Place, Use, optional_name, port, port_names, port_step, port_steps};
ghost use Rattle.vl_elab_spec.specs.Counts as counts;
ghost use Rattle.vl_elab_spec.specs.Meanings.{meanings_at};
ghost use Rattle.vl_elab_spec.specs.Refused as refused;
ghost use Rattle.vl_elab_scope.specs.Alike.{Alike};
ghost use Rattle.vl_elab_names.specs.Known.{AreNames};
ghost use Rattle.vl_elab_params.specs.Reached.{IsReached};
ghost use Rattle.vl_elab_spec.specs.Walked.{AreTotals, AreWalked};
ghost use Rattle.vl_elab_decls.specs.Clocks.{port_text};
ghost use Rattle.vl_elab_check_scope.specs.Short.{renamed};
ghost use Rattle.vl_elab_check.specs.Ports as spec;

use crate::passed::add_name;
use crate::step::weighed;
use fv_text::{Memory, Text};
use std::alloc::Global;
use vl_elab_check_scope::port_step_fault;
use vl_elab_count::{Added, optional_nodes, range_nodes};
use vl_elab_names::NameSet;
use vl_elab_params::Reached;
use vl_elab_places::port_place;
use vl_elab_scope::Names;
use vl_elab_spec::{ElabFault, Totals};
use vl_mean::widths::plus;
use vl_tree::{Expr, FullPort, Port, PortKind};

/// The port from which one that is written short behind this one takes what it doesn't say.
fn next_full<'a>(last: Option<&'a FullPort>, kind: &'a PortKind) -> Option<&'a FullPort>
    ensures { option_copied result ≡ spec.next_full (option_copied last.entry) kind.now }
{
    match kind {
        PortKind::Full(port) => Some(port),
        PortKind::Short(_, _) => last,
    }
}

fn port_text(kind: &PortKind) -> &Text
    ensures { result.now ≡ port_text kind.now }
{
    match kind {
        PortKind::Full(port) => &port.name,
        PortKind::Short(text, _) => text,
    }
}

fn port_value(kind: &PortKind) -> &Option<Expr>
    ensures { result.now ≡ spec.port_value kind.now }
{
    match kind {
        PortKind::Full(port) => &port.value,
        PortKind::Short(_, value) => value,
    }
}

/// A port of the shape of this one.
#[tactic(auto, using(vl_elab_count::proofs::CountSums::sums))]
fn port_nodes(full: &FullPort, value: &Option<Expr>) -> u64
    ensures { result ≡ capped (counts.range_nodes full.now.shape.range + counts.value_nodes value.now + 1) }
{
    let range = range_nodes(&full.shape.range);
    let value = optional_nodes(value);
    plus(plus(range, value), 1)
}

fn walk_full(
    alloc: Global,
    written: &Port,
    full: &FullPort,
    names: &Names,
    earlier: &mut NameSet,
    reached: &mut Reached,
    totals: &mut Totals,
) -> Result<Option<ElabFault>, Memory>
    ensures walked { IfOk result (λ g. (ms : List Module) (at : Place) (u : Use) (t : refused.Totals)
        → Alike names.now (meanings_at at) → AreNames earlier.old at.earlier → AreTotals totals.old t
        → AreWalked ms t totals.new (port at u written.now (renamed full.now (port_text written.now.kind)
        (spec.port_value written.now.kind)) ∷ []) g) }
    ensures earlier { OnOk result ((before : List (List ℕ)) → AreNames earlier.old before
        → AreNames earlier.new (before ++ port_text written.now.kind ∷ [])) }
    ensures reached { OnOk result ((at : Place) (before : List (List ℕ)) → Alike names.now (meanings_at at)
        → IsReached reached.old at before
        → IsReached reached.new at (before ++ port_text written.now.kind ∷ [])) }
{
    let text = port_text(&written.kind);
    let value = port_value(&written.kind);
    let fault = port_step_fault(alloc, written.pos, full, text, value, names, earlier)?;
    add_name(alloc, text, earlier)?;
    reached.pass(alloc, text, names)?;
    let added = Added {
        nodes: port_nodes(full, value),
        names: 1,
    };
    let place = port_place(written.pos, &full.shape.range, value, added, *totals);
    Ok(weighed(fault, added, place, totals))
}

/// One that is written short behind no other is none.
fn walk_port(
    alloc: Global,
    last: Option<&FullPort>,
    port: &Port,
    names: &Names,
    earlier: &mut NameSet,
    reached: &mut Reached,
    totals: &mut Totals,
) -> Result<Option<ElabFault>, Memory>
    ensures walked { IfOk result (λ g. (ms : List Module) (at : Place) (u : Use) (t : refused.Totals)
        → Alike names.now (meanings_at at) → AreNames earlier.old at.earlier → AreTotals totals.old t
        → AreWalked ms t totals.new
        (port_step at u port.now (full_port (option_copied last.entry) port.now.kind)) g) }
    ensures earlier { OnOk result ((before : List (List ℕ)) → AreNames earlier.old before
        → AreNames earlier.new
        (before ++ optional_name (full_port (option_copied last.entry) port.now.kind))) }
    ensures reached { OnOk result ((at : Place) (before : List (List ℕ)) → Alike names.now (meanings_at at)
        → IsReached reached.old at before → IsReached reached.new at
        (before ++ optional_name (full_port (option_copied last.entry) port.now.kind))) }
{
    match next_full(last, &port.kind) {
        None => Ok(None),
        Some(full) => walk_full(alloc, port, full, names, earlier, reached, totals),
    }
}

/// The ports of a module: the first refusal of them. None exactly where none is refused; then they stand behind the
/// names before them, and are counted.
pub fn walk_ports(
    alloc: Global,
    ports: &[Port],
    names: &Names,
    earlier: &mut NameSet,
    reached: &mut Reached,
    totals: &mut Totals,
) -> Result<Option<ElabFault>, Memory>
    ensures walked { IfOk result (λ g. (ms : List Module) (at : Place) (u : Use) (t : refused.Totals)
        → Alike names.now (meanings_at at) → AreNames earlier.old at.earlier → AreTotals totals.old t
        → AreWalked ms t totals.new (port_steps at u None ports.now) g) }
    ensures earlier { IfOk result (λ g. g ≡ None → (before : List (List ℕ)) → AreNames earlier.old before
        → AreNames earlier.new (before ++ port_names (full_ports None ports.now))) }
    ensures reached { IfOk result (λ g. g ≡ None → (at : Place) (before : List (List ℕ))
        → Alike names.now (meanings_at at) → IsReached reached.old at before
        → IsReached reached.new at (before ++ port_names (full_ports None ports.now))) }
{
    let mut last = None;
    for port in ports {
        let found = walk_port(alloc, last, port, names, earlier, reached, totals)?;
        if found.is_some() {
            return Ok(found);
        }
        last = next_full(last, &port.kind);
    }
    Ok(None)
}
