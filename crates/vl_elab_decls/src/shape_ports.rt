//! Ports of a module.
ghost use Rattle.std.specs.Prelude.{◌≡◌, None, IfOk, OnOk, IfSome};
ghost use Rattle.vl_mean.specs.Declarations as declarations;
ghost use Rattle.vl_elab_spec.specs.Meanings as meanings;
ghost use Rattle.vl_elab_decls.specs.Objects as spec;

use crate::inputs::Inputs;
use crate::shape_forms::{Form, PortForm, add_declared};
use crate::words::{class_of_kind, role_of_kind};
use fv_text::{Memory, Text};
use std::alloc::Global;
use vl_elab_params::known_extent;
use vl_elab_scope::{Level, Names};
use vl_elab_spec::Role;
use vl_size::Class;
use vl_tree::{Direction, FullPort, NetKind, Port, PortKind};

/// What a port is declared as: an output that isn't a `reg` is a net.
fn role_of_port(direction: Direction, net: Option<NetKind>) -> Role
    ensures { result ≡ meanings.role_of_port direction net }
{
    match direction {
        Direction::Input => Role::Input,
        Direction::Output => match net {
            None => Role::Net,
            Some(kind) => role_of_kind(kind),
        },
    }
}

fn is_output(direction: Direction) -> bool
    ensures { result ≡ declarations.is_output direction }
{
    matches!(direction, Direction::Output)
}

fn output_class(net: Option<NetKind>) -> Class
    ensures { result ≡ spec.output_class net }
{
    match net {
        None => Class::Net,
        Some(kind) => class_of_kind(kind),
    }
}

pub(crate) fn port_class(
    inputs: &Inputs,
    direction: Direction,
    net: Option<NetKind>,
    name: &Text,
) -> Class
    ensures { result ≡ spec.port_class inputs.now direction net name.now }
{
    match direction {
        Direction::Input => inputs.class_of(name),
        Direction::Output => output_class(net),
    }
}

fn form_of_port(inputs: &Inputs, form: PortForm, name: &Text) -> Form
    ensures { result ≡ spec.form_of_port inputs.now form name.now }
{
    Form {
        class: port_class(inputs, form.direction, form.net, name),
        signed: form.signed,
        scalar: form.scalar,
        role: role_of_port(form.direction, form.net),
        output: inputs.is_top() && is_output(form.direction),
        extent: form.extent,
    }
}

fn port_form(alloc: Global, port: &FullPort, names: &Names) -> Result<PortForm, Memory>
    ensures { IfOk result (λ f. f ≡ spec.port_form names.now port.now) }
{
    let extent = known_extent(alloc, &port.shape.range, names)?;
    Ok(PortForm {
        direction: port.direction,
        net: port.net,
        signed: port.shape.signed,
        scalar: port.shape.range.is_none(),
        extent,
    })
}

/// The form of a port behind one of the form `last`.
fn next_form(
    alloc: Global,
    last: Option<PortForm>,
    kind: &PortKind,
    names: &Names,
) -> Result<Option<PortForm>, Memory>
    ensures { IfOk result (λ f. f ≡ spec.next_form names.now last kind.now) }
{
    match kind {
        PortKind::Full(port) => Ok(Some(port_form(alloc, port, names)?)),
        PortKind::Short(_, _) => Ok(last),
    }
}

pub(crate) fn port_text(kind: &PortKind) -> &Text
    ensures { result.now ≡ spec.port_text kind.now }
{
    match kind {
        PortKind::Full(port) => &port.name,
        PortKind::Short(text, _) => text,
    }
}

fn add_port(
    alloc: Global,
    inputs: &Inputs,
    form: Option<PortForm>,
    name: &Text,
    level: &mut Level,
) -> Result<(), Memory>
    requires { IfSome form (λ f. spec.Fits f.extent) }
    ensures { OnOk result (level.new ≡ spec.with_port inputs.now level.old form name.now) }
{
    match form {
        None => Ok(()),
        Some(form) => {
            let form = form_of_port(inputs, form, name);
            add_declared(alloc, form, name, Some(None), level)
        }
    }
}

pub(crate) fn add_ports(
    alloc: Global,
    inputs: &Inputs,
    all: &[Port],
    names: &Names,
    level: &mut Level,
) -> Result<(), Memory>
    ensures { OnOk result (level.new ≡ spec.with_ports names.now inputs.now level.old None all.now) }
{
    let mut last = None;
    for port in all {
        last = next_form(alloc, last, &port.kind, names)?;
        add_port(alloc, inputs, last, port_text(&port.kind), level)?;
    }
    Ok(())
}
