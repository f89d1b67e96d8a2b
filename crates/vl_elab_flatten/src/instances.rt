//! Instances: the modules in them, and what they join to them.
ghost use Rattle.std.specs.Prelude.{◌≡◌, ◌++◌, IfOk, OnOk, codes};
ghost use Rattle.vl_mean.specs.Walk as walk;
ghost use Rattle.vl_elab_const.specs.Numbers.{HaveNumbers};
ghost use Rattle.vl_elab_const.specs.Openable.{IsOpenable};
ghost use Rattle.vl_elab_flatten.specs.Modules.{IsModuleOpened};
ghost use Rattle.vl_elab_flatten.specs.PortParts.{placed_connections};
ghost use Rattle.vl_elab_emit.specs.Behind.{StandBehind};

use crate::connections::write_connections;
use crate::here::Here;
use crate::inputs::joined_inputs;
use crate::modules::{Opened, open_module};
use crate::paths::inside_path;
use fv_text::{List, Memory};
use std::alloc::Global;
use vl_elab_check_instance::PortTable;
use vl_elab_const::given_by;
use vl_elab_draft::{Draft, Scopes};
use vl_tree::{Connection, Instance, Module};

fn connections_of(all: &Option<List<Connection>>) -> &[Connection]
    ensures { result.now ≡ walk.connections_of all.now }
{
    match all {
        None => &[],
        Some(all) => all.as_slice(),
    }
}

/// Opens the module of an instance (IEEE 1364-2005, sections 12.1.2 and 12.2.2).
pub(crate) fn open_instance(
    alloc: Global,
    module: &Module,
    instance: &Instance,
    here: &Here,
) -> Result<Opened, Memory>
    requires numbers { HaveNumbers here.now.numbers here.now.scopes }
    requires openable { IsOpenable (walk.module_scope module.now (walk.use_of walk.has_any here.now.scopes instance.now)
        (here.now.path ++ instance.now.name ++ codes ".")) }
    ensures { IfOk result (λ opened. IsModuleOpened module.now (walk.use_of walk.has_any here.now.scopes instance.now)
        (here.now.path ++ instance.now.name ++ codes ".") opened) }
{
    let given = given_by(alloc, connections_of(&instance.overrides), &here.numbers)?;
    let inputs = joined_inputs(alloc, instance.connections.as_slice(), &here.scopes)?;
    let path = inside_path(alloc, &here.path, &instance.name)?;
    open_module(alloc, module, &inputs, &given, path)
}

/// Writes what an instance joins to its module, which is opened.
pub(crate) fn write_joined(
    alloc: Global,
    module: &Module,
    instance: &Instance,
    scopes: &Scopes,
    inside: &Scopes,
    draft: &mut Draft,
) -> Result<(), Memory>
    ensures { OnOk result (StandBehind draft.old
        (placed_connections scopes.now inside.now module.now instance.now.connections) draft.new) }
{
    let ports = PortTable::new(alloc, module)?;
    write_connections(
        alloc,
        &ports,
        instance.connections.as_slice(),
        scopes,
        inside,
        draft,
    )
}
