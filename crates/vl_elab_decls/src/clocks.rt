//! The inputs of a module that are the clock.
ghost use Rattle.std.specs.Prelude.{◌≡◌, ◌&&◌, ◌||◌, ℕ, List, None, false, bytes_eq, IfOk, OnOk};
ghost use Rattle.vl_mean.specs.Declarations.{declared_ports, full_ports};
ghost use Rattle.vl_mean.specs.Scopes.{Scope, is_clock_class, is_clock_decl};
ghost use Rattle.vl_mean.specs.Walk.{Use};
ghost use Rattle.vl_size.specs.Table.{declared_as};
ghost use Rattle.vl_elab_names.specs.Known.{contains};
ghost use Rattle.vl_elab_decls.specs.Inputs.{AreInputs};
ghost use Rattle.vl_elab_decls.specs.Clocks as spec;

use crate::inputs::Inputs;
use fv_text::{Memory, Text};
use std::alloc::Global;
use vl_elab_names::NameSet;
use vl_size::Class;
use vl_tree::{Direction, Port, PortKind};

fn next_direction(last: Option<Direction>, kind: &PortKind) -> Option<Direction>
    ensures { result ≡ spec.next_direction last kind.now }
{
    match kind {
        PortKind::Full(port) => Some(port.direction),
        PortKind::Short(_, _) => last,
    }
}

fn port_text(kind: &PortKind) -> &Text
    ensures { result.now ≡ spec.port_text kind.now }
{
    match kind {
        PortKind::Full(port) => &port.name,
        PortKind::Short(text, _) => text,
    }
}

fn is_clock_class(class: Class) -> bool
    ensures { result ≡ is_clock_class class }
{
    matches!(class, Class::Clock)
}

fn is_clock(inputs: &Inputs, direction: Direction, text: &Text) -> bool
    ensures { result ≡ spec.is_clock_port inputs.now direction text.now }
{
    match direction {
        Direction::Input => is_clock_class(inputs.class_of(text)),
        Direction::Output => false,
    }
}

/// Of an input that no port before it has the name of.
fn add_clock(alloc: Global, test: bool, text: &Text, clocks: &mut NameSet) -> Result<(), Memory>
    ensures { OnOk result ((other : List ℕ)
        → contains clocks.new other ≡ ((bytes_eq other text.now && test) || contains clocks.old other)) }
{
    if !test {
        return Ok(());
    }
    clocks.add(text.copied(alloc)?)
}

fn add_port(
    alloc: Global,
    inputs: &Inputs,
    direction: Option<Direction>,
    text: &Text,
    ports: &mut NameSet,
    clocks: &mut NameSet,
) -> Result<(), Memory>
    ensures ports { OnOk result ((other : List ℕ)
        → contains ports.new other ≡ spec.with_port direction text.now (contains ports.old) other) }
    ensures clocks { OnOk result ((other : List ℕ) → contains clocks.new other
        ≡ spec.with_clock inputs.now direction text.now (contains ports.old) (contains clocks.old) other) }
{
    match direction {
        None => Ok(()),
        Some(direction) => {
            let test = !ports.contains(text) && is_clock(inputs, direction, text);
            ports.add(text.copied(alloc)?)?;
            add_clock(alloc, test, text, clocks)
        }
    }
}

fn all_clocks(alloc: Global, inputs: &Inputs, all: &[Port]) -> Result<NameSet, Memory>
    ensures { IfOk result (λ set. (other : List ℕ) → contains set other
        ≡ spec.clocks_of inputs.now None all.now (λ text. false) (λ text. false) other) }
{
    let mut ports = NameSet::new(alloc);
    let mut clocks = NameSet::new(alloc);
    let mut last = None;
    for port in all {
        last = next_direction(last, &port.kind);
        add_port(
            alloc,
            inputs,
            last,
            port_text(&port.kind),
            &mut ports,
            &mut clocks,
        )?;
    }
    Ok(clocks)
}

/// The inputs of a module that are the clock, where it is used as `inputs` says.
pub(crate) fn clock_inputs(alloc: Global, inputs: &Inputs, all: &[Port]) -> Result<NameSet, Memory>
    ensures { IfOk result (λ set. (ss : List Scope) (u : Use) → AreInputs inputs.now u → (text : List ℕ)
        → contains set text
        ≡ is_clock_decl (declared_as (declared_ports ss u.is_top u.input (full_ports None all.now)) text)) }
{
    all_clocks(alloc, inputs, all)
}
