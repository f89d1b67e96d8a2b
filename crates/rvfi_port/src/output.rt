//! The outputs of a design that are fields.

ghost use Rattle.std.specs.Prelude.{◌≡◌, Some, MatchResult, option_map};
ghost use Rattle.rvfi_port.specs.Outputs as outputs;
ghost use Rattle.wn_net.specs.Names.{AreNamesOf};

use crate::fault::PortFault;
use crate::field::Field;
use std::alloc::Global;
use wn_net::{Names, Net, NetName, NodeId, Place};

/// The output that has the field's name.
fn find_output(names: &Names, field: Field) -> Option<&NetName>
    ensures { option_map (λ n. n.now) result ≡ outputs.output_of names.now field }
{
    names
        .list
        .as_slice()
        .iter()
        .find(|name| name.output && name.text.bytes() == field.name())
}

/// The width that the output of a field has to have, of all channels together.
fn wanted_width(channels: u32, field: Field) -> u64
    ensures { result ≡ outputs.wanted_width channels field }
{
    if field.is_per_channel() {
        u64::from(channels) * u64::from(field.width())
    } else {
        u64::from(field.width())
    }
}

/// The node of the output of a field.
pub(crate) fn output_node(
    net: &Net,
    names: &Names,
    channels: u32,
    field: Field,
) -> Result<NodeId, PortFault>
    requires { AreNamesOf net.now names.now }
    ensures { MatchResult result (outputs.IsOutput net.now names.now channels field)
        (λ fault. outputs.judged channels field (outputs.output_of names.now field) ≡ Some fault) }
{
    let Some(output) = find_output(names, field) else {
        return Err(PortFault::Missing(field));
    };
    let wanted = wanted_width(channels, field);
    if u64::from(output.width) != wanted {
        return Err(PortFault::Width(field, output.width, wanted));
    }
    match output.place {
        Place::Node(id) => Ok(id),
        Place::Mem(_) => Err(PortFault::Missing(field)),
    }
}

/// The nodes of the outputs of fields, in their order.
pub(crate) fn outputs_of(
    alloc: Global,
    net: &Net,
    names: &Names,
    channels: u32,
    fields: &[Field],
) -> Result<Vec<NodeId>, PortFault>
    requires { AreNamesOf net.now names.now }
    ensures { MatchResult result (λ made. outputs.AreOutputs net.now names.now channels fields.now made.items)
        (λ fault. outputs.Answered fault (outputs.first_refused names.now channels fields.now)) }
{
    let mut made = Vec::new(alloc);
    for field in fields {
        let id = output_node(net, names, channels, *field)?;
        made.push(id)?;
    }
    Ok(made)
}
