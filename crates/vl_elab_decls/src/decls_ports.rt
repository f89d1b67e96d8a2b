//! Nets and variables that the ports of a module declare.
ghost use Rattle.std.specs.Prelude.{◌≡◌, ◌&&◌, ◌++◌, List, Option, None, IfOk, OnOk};
ghost use Rattle.vl_tree.specs.declared.declaration.FullPort.{FullPort as SpecPort};
ghost use Rattle.vl_mean.specs.Declarations as spec;
ghost use Rattle.vl_mean.specs.Runs.{Each};
ghost use Rattle.vl_mean.specs.Scopes.{Scope};
ghost use Rattle.vl_mean.specs.Walk.{Use};
ghost use Rattle.vl_elab_const.specs.Numbers.{HaveNumbers};
ghost use Rattle.vl_elab_const.specs.Openable.{IsInRange};
ghost use Rattle.vl_elab_decls.specs.Inputs.{AreInputs};
ghost use Rattle.vl_elab_decls.specs.Inputs as inputs_spec;
ghost use Rattle.vl_elab_decls.specs.Ports as ports;

use crate::decls_forms::{Form, decl_with};
use crate::inputs::Inputs;
use crate::shape_ports::{port_class, port_text};
use fv_text::{List, Memory, Text};
use std::alloc::Global;
use vl_elab_const::{Extent, extent_in};
use vl_elab_scope::Names;
use vl_size::Decl;
use vl_tree::{Direction, FullPort, NetKind, Port, PortKind};

/// Of a port, what one that is written short behind it takes.
#[derive(Clone, Copy)]
pub(crate) struct PortForm {
    pub direction: Direction,
    pub net: Option<NetKind>,
    pub signed: bool,
    pub extent: Extent,
}

fn port_form(alloc: Global, port: &FullPort, numbers: &Names) -> Result<PortForm, Memory>
    ensures { IfOk result (λ form. (ss : List Scope) → HaveNumbers numbers.now ss
        → ports.IsPortForm ss port.now form) }
{
    let extent = extent_in(alloc, &port.shape.range, numbers)?;
    Ok(PortForm {
        direction: port.direction,
        net: port.net,
        signed: port.shape.signed,
        extent,
    })
}

/// The form of a port behind one of the form `last`.
fn next_form(
    alloc: Global,
    last: Option<PortForm>,
    kind: &PortKind,
    numbers: &Names,
) -> Result<Option<PortForm>, Memory>
    ensures { IfOk result (λ next. (ss : List Scope) (q : Option SpecPort) → HaveNumbers numbers.now ss
        → ports.AreForms ss q last → ports.AreForms ss (spec.full_port q kind.now) next) }
{
    match kind {
        PortKind::Full(port) => {
            let form = port_form(alloc, port, numbers)?;
            Ok(Some(form))
        }
        PortKind::Short(text, value) => Ok(last),
    }
}

/// Only the outputs of the top module count as outputs of the design.
fn is_output(inputs: &Inputs, direction: Direction) -> bool
    ensures { result ≡ (inputs_spec.is_top inputs.now && spec.is_output direction) }
{
    match inputs {
        Inputs::Top => matches!(direction, Direction::Output),
        Inputs::Joined(_) => false,
    }
}

fn form_of_port(inputs: &Inputs, form: PortForm, name: &Text) -> Form
    ensures { result ≡ ports.form_of_port inputs.now form name.now }
{
    Form {
        class: port_class(inputs, form.direction, form.net, name),
        signed: form.signed,
        output: is_output(inputs, form.direction),
        extent: form.extent,
    }
}

fn add_port(
    alloc: Global,
    inputs: &Inputs,
    form: Option<PortForm>,
    name: &Text,
    decls: &mut List<Decl>,
) -> Result<(), Memory>
    ensures { OnOk result (decls.new ≡ decls.old ++ ports.decls_with inputs.now form name.now) }
{
    match form {
        None => Ok(()),
        Some(form) => {
            let form = form_of_port(inputs, form, name);
            let decl = decl_with(alloc, form, name, None)?;
            decls.push(decl)
        }
    }
}

fn add_ports(
    alloc: Global,
    inputs: &Inputs,
    all: &[Port],
    numbers: &Names,
    decls: &mut List<Decl>,
) -> Result<(), Memory>
    ensures { OnOk result ((ss : List Scope) (u : Use) → AreInputs inputs.now u → HaveNumbers numbers.now ss
        → Each IsInRange (spec.declared_ports ss u.is_top u.input (spec.full_ports None all.now))
        → decls.new ≡ decls.old ++ spec.declared_ports ss u.is_top u.input (spec.full_ports None all.now)) }
{
    let mut last = None;
    for port in all {
        last = next_form(alloc, last, &port.kind, numbers)?;
        add_port(alloc, inputs, last, port_text(&port.kind), decls)?;
    }
    Ok(())
}

/// What the ports of a module that is used as `inputs` says declare, in order, where it is in range (IEEE 1364-2005,
/// section 12.3.3): one for each, but none for a port that is written short before any other. `numbers`: those of the
/// constants over which bounds are read.
pub fn decls_of_ports(
    alloc: Global,
    inputs: &Inputs,
    all: &[Port],
    numbers: &Names,
) -> Result<List<Decl>, Memory>
    ensures { IfOk result (λ decls. (ss : List Scope) (u : Use) → AreInputs inputs.now u → HaveNumbers numbers.now ss
        → Each IsInRange (spec.declared_ports ss u.is_top u.input (spec.full_ports None all.now))
        → decls ≡ spec.declared_ports ss u.is_top u.input (spec.full_ports None all.now)) }
{
    let mut decls = List::new(alloc);
    add_ports(alloc, inputs, all, numbers, &mut decls)?;
    Ok(decls)
}
