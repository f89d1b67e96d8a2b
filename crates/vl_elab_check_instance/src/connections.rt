//! What an instance joins to the ports of its module.
ghost use Rattle.std.specs.Prelude.{◌≡◌, ℕ, List, IfOk};
ghost use Rattle.vl_mean.specs.Walk.{Place, Use};
ghost use Rattle.vl_mean.specs.Scopes as scopes;
ghost use Rattle.vl_tree.specs.declared.source.Module.{Module as SpecModule};
ghost use Rattle.vl_elab_spec.specs.Items as items;
ghost use Rattle.vl_elab_spec.specs.Meanings.{meanings_at};
ghost use Rattle.vl_elab_spec.specs.Refused.{lowest};
ghost use Rattle.vl_elab_scope.specs.Alike.{Alike};
ghost use Rattle.vl_elab_names.specs.Known.{AreNames, contains};
ghost use Rattle.vl_elab_decls.specs.Stands.{Stands};
ghost use Rattle.vl_elab_check_instance.specs.Joined as spec;
ghost use Rattle.vl_elab_check_instance.specs.Ports.{AreDirectionsOf};

use crate::clock::is_clock;
use crate::connection::connection_fault;
use crate::ports::PortTable;
use fv_text::{List, Memory, Pos, Text};
use std::alloc::Global;
use vl_elab_names::NameSet;
use vl_elab_scope::Names;
use vl_elab_spec::ElabFault;
use vl_tree::{Connection, Direction, FullPort, Shape};

/// A port of which the direction and the name alone count.
fn port_with(alloc: Global, direction: Direction, name: &Text) -> Result<FullPort, Memory>
    ensures { IfOk result (λ p. p ≡ spec.port_with direction name.now) }
{
    Ok(FullPort {
        attributes: List::new(alloc),
        direction,
        net: None,
        shape: Shape {
            signed: false,
            range: None,
        },
        name: name.copied(alloc)?,
        name_pos: Pos {
            file: 0,
            line: 1,
            col: 1,
        },
        value: None,
    })
}

/// A connection to a port of this direction, or to none.
fn judge(
    alloc: Global,
    direction: Option<Direction>,
    given: &Connection,
    is_twice: bool,
    is_clock: bool,
    names: &Names,
    inner: &Names,
) -> Result<Option<ElabFault>, Memory>
    ensures { IfOk result (λ g. (at : Place) → scopes.is_clock at.scopes given.now.value ≡ is_clock
        → g ≡ lowest (spec.connection_parts at names.now inner.now is_twice (spec.port_if direction given.now.port)
        given.now)) }
{
    match direction {
        None => connection_fault(alloc, given, is_twice, None, is_clock, names, inner),
        Some(direction) => {
            let port = port_with(alloc, direction, &given.port)?;
            connection_fault(alloc, given, is_twice, Some(&port), is_clock, names, inner)
        }
    }
}

/// What an instance joins to a port of its module. `names` and `numbers`: what names mean and the numbers of constants
/// where the instance stands; `clocks`: the inputs of the module around that are the clock; `inner`: what names mean
/// in the module; `earlier`: the ports that something is joined to before it.
pub fn connection_step_fault(
    alloc: Global,
    ports: &PortTable,
    given: &Connection,
    names: &Names,
    numbers: &Names,
    clocks: &NameSet,
    inner: &Names,
    earlier: &NameSet,
) -> Result<Option<ElabFault>, Memory>
    ensures { IfOk result (λ g. (at : Place) (m : SpecModule) (u : Use) (before : List (List ℕ))
        → AreDirectionsOf ports.now m
        → Stands names.now numbers.now (contains clocks.now) (meanings_at at) at.scopes
        → Alike inner.now (items.inner_meanings m u) → AreNames earlier.now before
        → g ≡ lowest (items.connection_refusals at m u before given.now)) }
{
    let to = ports.direction(&given.port);
    let is_twice = earlier.contains(&given.port);
    let test = is_clock(&given.value, numbers, clocks);
    judge(alloc, to, given, is_twice, test, names, inner)
}
