//! Ports, nets and variables of a scope.
ghost use Rattle.std.specs.Prelude.{◌≡◌, ◌++◌, List, None, IfOk};
ghost use Rattle.vl_tree.specs.Item.{items};
ghost use Rattle.vl_mean.specs.Declarations.{full_ports};
ghost use Rattle.vl_mean.specs.Scopes.{Scope};
ghost use Rattle.vl_mean.specs.Walk.{Use};
ghost use Rattle.vl_elab_spec.specs.Meanings as meanings;
ghost use Rattle.vl_elab_spec.specs.Meanings.{port_meanings, items_meanings};
ghost use Rattle.vl_elab_scope.specs.Alike.{Alike};
ghost use Rattle.vl_elab_decls.specs.Inputs.{AreInputs};
ghost use Rattle.vl_elab_decls.specs.Objects as spec;
ghost use Rattle.vl_elab_decls.specs.Shaped.{IsDeclared, AreShaped};

use crate::inputs::Inputs;
use crate::shape_items::add_items;
use crate::shape_ports::add_ports;
use fv_text::Memory;
use std::alloc::Global;
use vl_elab_scope::{Level, Names};
use vl_tree::{Item, Port};

fn all_objects(
    alloc: Global,
    inputs: &Inputs,
    ports: &[Port],
    all: &[Item],
    names: &Names,
) -> Result<Level, Memory>
    ensures { IfOk result (λ level. level
        ≡ spec.scope_objects names.now inputs.now ports.now (items all.now)) }
{
    let mut level = Level::new(alloc);
    add_ports(alloc, inputs, ports, names, &mut level)?;
    add_items(alloc, all, names, &mut level)?;
    Ok(level)
}

/// What the ports, nets, variables and genvars of a scope mean. `ports`: those of a module, which is used as `inputs`
/// says; `all`: the items of a module or a block; `names`: what names mean in its shapes, of its own the parameters
/// alone.
pub(crate) fn objects_of_scope(
    alloc: Global,
    inputs: &Inputs,
    ports: &[Port],
    all: &[Item],
    names: &Names,
) -> Result<Level, Memory>
    ensures { IfOk result (λ level. (s : Scope) (outer known : List meanings.Names) (ss : List Scope) (u : Use)
        → AreInputs inputs.now u → Alike names.now known
        → IsDeclared s known ss u (full_ports None ports.now) (items all.now)
        → AreShaped level
        (port_meanings s outer known (full_ports None ports.now)
        ++ items_meanings s outer known (items all.now)) s.decls) }
{
    all_objects(alloc, inputs, ports, all, names)
}
