//! Operators of which there is one each.
ghost use Rattle.std.specs.Prelude.{◌≡◌, ◌++◌, ◌∷◌, [], None, length, IfOk, OnOk, OnErr};
ghost use Rattle.wn_net.specs.Width.{IsFitting};
ghost use Rattle.wn_net.specs.Net.{shape_of, widths_of};
ghost use Rattle.wn_net.specs.Changes.{AddsNodes, Shows, width_in, value_in, with_node};
ghost use Rattle.wn_opt.specs.Hashing.{IsOnce};
ghost use Rattle.wn_opt.specs.Table as spec;
ghost use Rattle.wn_opt.specs.Table.{IsOperator, IsTableOf, place_in};

use crate::build::build;
use crate::kept::whole;
use crate::table::Table;
use fv_text::Memory;
use std::alloc::Global;
use wn_net::{Net, Node, NodeId};

fn is_source(node: &Node) -> bool
    ensures { result ≡ spec.is_source node.now }
{
    match *node {
        Node::Input(_) => true,
        Node::Reg(_) => true,
        _ => false,
    }
}

/// Puts a node behind others into their table.
fn note(table: &mut Table, nodes: &[Node], node: &Node) -> Result<(), Memory>
    requires { IsTableOf nodes.now table.old }
    ensures { OnOk result (IsTableOf (nodes.now ++ node.now ∷ []) table.new) }
{
    if is_source(node) {
        return Ok(());
    }
    match table.find(node) {
        Some(_) => Ok(()),
        None => Ok(table.put(node, nodes.len() as u64)?),
    }
}

/// Each operator among the nodes, at its first place.
pub(crate) fn table_of(alloc: Global, nodes: &[Node]) -> Result<Table, Memory>
    ensures { IfOk result (IsTableOf nodes.now) }
{
    let mut table = Table::new(alloc);
    for (index, node) in nodes.iter().enumerate() {
        note(&mut table, &nodes[..index], node)?;
    }
    Ok(table)
}

/// Adds an operator that isn't there.
fn add(net: &mut Net, table: &mut Table, node: Node) -> Result<NodeId, Memory>
    requires operator { IsOperator node }
    requires fits { IsFitting (shape_of net.old) (widths_of net.old) node }
    requires table { IsTableOf net.old.nodes table.old }
    requires absent { place_in table.old node ≡ None }
    ensures table { IsTableOf net.new.nodes table.new }
    ensures last { IfOk result (λ id. id ≡ length net.old.nodes) }
    ensures new { OnOk result (net.new ≡ with_node net.old node) }
    ensures same { OnErr result (net.new ≡ net.old) }
{
    let nodes = net.nodes().len();
    let regs = net.regs().len();
    let id = build(net, node)?;
    match table.put(&node, id) {
        Ok(()) => Ok(id),
        Err(fault) => {
            net.cut(nodes, regs);
            Err(fault)
        }
    }
}

/// An equal operator, or else this one.
pub(crate) fn once(net: &mut Net, table: &mut Table, node: Node) -> Result<NodeId, Memory>
    requires operator { IsOperator node }
    requires fits { IsFitting (shape_of net.old) (widths_of net.old) node }
    requires table { IsTableOf net.old.nodes table.old }
    ensures table { IsTableOf net.new.nodes table.new }
    ensures once { IfOk result (IsOnce net.old net.new node) }
    ensures shows { IfOk result (Shows net.old net.new (width_in net.old node) (λ g. value_in net.old g node)) }
    ensures adds { AddsNodes net.old net.new }
    ensures same { OnErr result (net.new ≡ net.old) }
{
    whole(net);
    match table.find(&node) {
        Some(id) => Ok(id),
        None => Ok(add(net, table, node)?),
    }
}
