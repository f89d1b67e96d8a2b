//! Ports of a module.
ghost use Rattle.std.specs.Prelude.{◌≡◌, IfOk};
ghost use Rattle.vl_mean.specs.Walk.{Place};
ghost use Rattle.vl_elab_spec.specs.Items as items;
ghost use Rattle.vl_elab_spec.specs.Meanings.{meanings_at};
ghost use Rattle.vl_elab_spec.specs.Refused.{lowest};
ghost use Rattle.vl_elab_scope.specs.Alike.{Alike};
ghost use Rattle.vl_elab_names.specs.Known.{AreNames};
ghost use Rattle.vl_elab_check_item.specs.ItemParts.{port_parts};
ghost use Rattle.vl_elab_check_scope.specs.Short.{renamed};

use fv_text::{Memory, Pos, Text};
use std::alloc::Global;
use vl_elab_check_expr::{first_of, twice_if};
use vl_elab_check_item::{given_value, range_fault, width_fault};
use vl_elab_names::NameSet;
use vl_elab_scope::Names;
use vl_elab_spec::ElabFault;
use vl_tree::{Expr, FullPort, NetKind};

fn port_net(kind: Option<NetKind>) -> NetKind
    ensures { result ≡ items.port_net kind }
{
    match kind {
        None => NetKind::Wire,
        Some(kind) => kind,
    }
}

/// By whether its name stands before it.
#[tactic(auto, using(vl_elab_check_expr::proofs::Lowest::lowest_parts))]
fn judge_port(
    alloc: Global,
    pos: Pos,
    full: &FullPort,
    text: &Text,
    value: &Option<Expr>,
    is_twice: bool,
    names: &Names,
) -> Result<Option<ElabFault>, Memory>
    ensures { IfOk result (λ g. g
        ≡ lowest (port_parts names.now is_twice pos (renamed full.now text.now value.now))) }
{
    let twice = twice_if(alloc, is_twice, text, pos)?;
    let range = range_fault(alloc, &full.shape.range, names)?;
    let width = width_fault(alloc, pos, &full.shape.range, names)?;
    let own = given_value(alloc, pos, port_net(full.net), text, value, names)?;
    Ok(first_of(first_of(first_of(twice, range), width), own))
}

/// A port with this name and value. `full`: what it takes all else from, the port itself or the full one before it;
/// `earlier`: the names that stand before it.
pub fn port_step_fault(
    alloc: Global,
    pos: Pos,
    full: &FullPort,
    text: &Text,
    value: &Option<Expr>,
    names: &Names,
    earlier: &NameSet,
) -> Result<Option<ElabFault>, Memory>
    ensures { IfOk result (λ g. (at : Place) → Alike names.now (meanings_at at) → AreNames earlier.now at.earlier
        → g ≡ lowest (items.port_refusals at pos (renamed full.now text.now value.now))) }
{
    judge_port(alloc, pos, full, text, value, earlier.contains(text), names)
}
