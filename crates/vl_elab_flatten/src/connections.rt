//! What an instance joins to the ports of its module.
ghost use Rattle.std.specs.Prelude.{◌≡◌, OnOk};
ghost use Rattle.vl_tree.specs.declared.source.Module.{Module as SpecModule};
ghost use Rattle.vl_elab_check_instance.specs.Ports.{AreDirectionsOf};
ghost use Rattle.vl_elab_emit.specs.Behind as behind;
ghost use Rattle.vl_elab_flatten.specs.PortParts as spec;

use fv_text::Memory;
use std::alloc::Global;
use vl_elab_check_instance::PortTable;
use vl_elab_draft::{Draft, Scopes};
use vl_elab_emit::write_joined;
use vl_tree::Connection;

fn write_connection(
    alloc: Global,
    ports: &PortTable,
    given: &Connection,
    scopes: &Scopes,
    inside: &Scopes,
    draft: &mut Draft,
) -> Result<(), Memory>
    ensures { OnOk result ((m : SpecModule) → AreDirectionsOf ports.now m
        → behind.StandBehind draft.old
        (behind.placed_at given.now.pos (spec.connection_parts scopes.now inside.now m given.now)) draft.new) }
{
    let direction = ports.direction(&given.port);
    write_joined(
        alloc,
        given.pos,
        direction,
        &given.port,
        &given.value,
        scopes,
        inside,
        draft,
    )
}

/// Writes what an instance joins to the ports of its module, in order (IEEE 1364-2005, section 12.3.6). `ports`: those
/// of the module, `scopes`: those around the instance, `inside`: those of the module in it. The place of each is that
/// of the connection.
pub fn write_connections(
    alloc: Global,
    ports: &PortTable,
    all: &[Connection],
    scopes: &Scopes,
    inside: &Scopes,
    draft: &mut Draft,
) -> Result<(), Memory>
    ensures { OnOk result ((m : SpecModule) → AreDirectionsOf ports.now m
        → behind.StandBehind draft.old (spec.placed_connections scopes.now inside.now m all.now) draft.new) }
{
    for given in all {
        write_connection(alloc, ports, given, scopes, inside, draft)?;
    }
    Ok(())
}
