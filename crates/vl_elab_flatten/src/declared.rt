//! Ports that a module declares.
ghost use Rattle.std.specs.Prelude.{◌≡◌, None, IfOk, OnOk};
ghost use Rattle.vl_mean.specs.Declarations as declarations;
ghost use Rattle.vl_mean.specs.Parts as parts;
ghost use Rattle.vl_elab_decls.specs.Objects as objects;
ghost use Rattle.vl_elab_emit.specs.Behind as behind;
ghost use Rattle.vl_elab_flatten.specs.PortParts as spec;

use fv_text::{Memory, Pos, Text};
use std::alloc::Global;
use std::slice;
use vl_elab_draft::{Draft, Path, Scopes};
use vl_elab_emit::{write_declarations, write_optional_value};
use vl_size::Decl;
use vl_tree::{Expr, NetKind, Port, PortKind};

fn net_of(net: Option<NetKind>) -> NetKind
    ensures { result ≡ parts.port_kind net }
{
    match net {
        None => NetKind::Wire,
        Some(kind) => kind,
    }
}

/// The kind of a port behind one of the kind `last`.
fn next_net(last: Option<NetKind>, kind: &PortKind) -> Option<NetKind>
    ensures { result ≡ spec.next_net last kind.now }
{
    match kind {
        PortKind::Full(port) => Some(net_of(port.net)),
        PortKind::Short(_, _) => last,
    }
}

fn port_text(kind: &PortKind) -> &Text
    ensures { result.now ≡ objects.port_text kind.now }
{
    match kind {
        PortKind::Full(port) => &port.name,
        PortKind::Short(text, _) => text,
    }
}

fn port_value(kind: &PortKind) -> &Option<Expr>
    ensures { result.now ≡ spec.port_value kind.now }
{
    match kind {
        PortKind::Full(port) => &port.value,
        PortKind::Short(_, value) => value,
    }
}

/// Where the name of a port stands, which is at this place and of this kind.
fn name_pos(pos: Pos, kind: &PortKind) -> Pos
    ensures { result ≡ declarations.kind_name_pos pos kind.now }
{
    match kind {
        PortKind::Full(port) => port.name_pos,
        PortKind::Short(_, _) => pos,
    }
}

/// A port, first as it is declared and then with its value.
fn write_port(
    alloc: Global,
    port: &Port,
    net: NetKind,
    path: &Path,
    decls: &[Decl],
    scopes: &Scopes,
    draft: &mut Draft,
) -> Result<(), Memory>
    requires { behind.MayStandBehind draft.old (spec.port_parts scopes.now path.now decls.now net
        (objects.port_text port.now.kind) (spec.port_value port.now.kind)) }
    ensures { OnOk result (behind.StandBehind draft.old (behind.placed_at (declarations.port_name_pos port.now)
        (spec.port_parts scopes.now path.now decls.now net (objects.port_text port.now.kind)
        (spec.port_value port.now.kind))) draft.new) }
{
    write_declarations(alloc, path, scopes, decls, draft)?;
    let name = port_text(&port.kind);
    let value = port_value(&port.kind);
    let pos = name_pos(port.pos, &port.kind);
    write_optional_value(alloc, pos, net, name, value, scopes, draft)
}

/// A port of this kind, which declares the first one of these, if it is one; answers those behind it.
fn write_first<'a>(
    alloc: Global,
    port: &Port,
    net: Option<NetKind>,
    path: &Path,
    decls: &'a [Decl],
    scopes: &Scopes,
    draft: &mut Draft,
) -> Result<&'a [Decl], Memory>
    requires { behind.MayStandBehind draft.old (spec.first_parts scopes.now path.now decls.now net
        (objects.port_text port.now.kind) (spec.port_value port.now.kind)) }
    ensures rest { IfOk result (λ rest. rest.now ≡ spec.behind_first net decls.now) }
    ensures written { OnOk result (behind.StandBehind draft.old (behind.placed_at (declarations.port_name_pos port.now)
        (spec.first_parts scopes.now path.now decls.now net (objects.port_text port.now.kind)
        (spec.port_value port.now.kind))) draft.new) }
{
    match net {
        None => Ok(decls),
        Some(net) => match decls.split_first() {
            None => Ok(decls),
            Some((first, rest)) => {
                let own = slice::from_ref(first);
                write_port(alloc, port, net, path, own, scopes, draft)?;
                Ok(rest)
            }
        },
    }
}

/// Writes ports in order, each with the value that it is declared with, at its name (IEEE 1364-2005, section 12.3.3).
/// `decls`: what the ports declare: one for each, but none for a port that is written short before any other. `path`:
/// that of the module, `scopes`: its scopes.
pub fn write_ports(
    alloc: Global,
    all: &[Port],
    path: &Path,
    decls: &[Decl],
    scopes: &Scopes,
    draft: &mut Draft,
) -> Result<(), Memory>
    requires { behind.MayStandBehind draft.old
        (spec.all_port_parts scopes.now path.now decls.now (declarations.full_ports None all.now)) }
    ensures { OnOk result (behind.StandBehind draft.old
        (spec.placed_ports scopes.now path.now decls.now all.now) draft.new) }
{
    let mut last = None;
    let mut rest = decls;
    for port in all {
        last = next_net(last, &port.kind);
        rest = write_first(alloc, port, last, path, rest, scopes, draft)?;
    }
    Ok(())
}
