//! Nets in which equal nodes are one.
ghost use Rattle.std.specs.Prelude.{◌≡◌, ◌<◌, ◌≤◌, ◌^◌, IfOk, OnErr};
ghost use Rattle.wn_net.specs.Width.{IsFitting};
ghost use Rattle.wn_net.specs.Net.{shape_of, widths_of};
ghost use Rattle.wn_net.specs.Changes.{AddsNodes, Shows, width_in, value_in};
ghost use Rattle.wn_opt.specs.Hashing.{Answers, IsNumber, IsOnce};
ghost use Rattle.wn_opt.specs.Table.{IsOperator};

use crate::fold::{Folded, sound_fold};
use crate::once::{once, table_of};
use crate::table::Table;
use fv_text::{Memory, Word};
use std::alloc::Global;
use std::marker::Model;
use wn_net::{Net, Node, NodeId};

/// A net that answers one number for equal nodes.
///
/// A call for a node answers an equal one, where one is there, and adds nothing. Operators of constants are constants;
/// operators of one node with itself fold where their value is that node or a constant; a choice by a constant is the
/// node that it takes; and operands whose order doesn't count stand in the order of their numbers.
#[derive(Drop)]
pub struct Hashed {
    pub(crate) net: Net,
    table: Table,
}

impl Model for Hashed {
    ghost use Rattle.wn_net.specs.Net.{Netlist};
    ghost use Rattle.wn_opt.specs.Table.{IsTableOf};

    ghost Value = { Netlist };

    ghost view = { λ h. h.net };

    ghost invariant = { λ h. IsTableOf h.net.nodes h.table };
}

impl Hashed {
    /// The net as it is. Equal nodes that it has stay, and calls answer the first of them.
    pub fn new(alloc: Global, net: Net) -> Result<Hashed, Memory>
        ensures { IfOk result (λ h. h ≡ net) }
    {
        let table = table_of(alloc, net.nodes())?;
        Ok(Hashed { net, table })
    }

    /// What was built so far.
    pub fn net(&self) -> &Net
        ensures { result.now ≡ self.now }
    {
        &self.net
    }

    /// The net that was built.
    pub fn finish(self) -> Net
        ensures { result ≡ self }
    {
        let Hashed { net, table: _ } = self;
        net
    }

    /// An equal operator, or else this one.
    fn once(&mut self, node: Node) -> Result<NodeId, Memory>
        requires operator { IsOperator node }
        requires fits { IsFitting (shape_of self.old) (widths_of self.old) node }
        ensures once { IfOk result (IsOnce self.old self.new node) }
        ensures shows { IfOk result (Shows self.old self.new (width_in self.old node)
            (λ g. value_in self.old g node)) }
        ensures adds { AddsNodes self.old self.new }
        ensures same { OnErr result (self.new ≡ self.old) }
    {
        let id = once(&mut self.net, &mut self.table, node)?;
        Ok(id)
    }

    /// A constant.
    fn number(&mut self, width: u32, value: u128) -> Result<NodeId, Memory>
        requires some { 1 ≤ width }
        requires few { width ≤ 128 }
        requires fits { value < 2 ^ width }
        ensures number { IfOk result (IsNumber self.old self.new width value) }
        ensures shows { IfOk result (Shows self.old self.new width (λ g. value)) }
        ensures adds { AddsNodes self.old self.new }
        ensures same { OnErr result (self.new ≡ self.old) }
    {
        let Some(word) = Word::new(width, value) else {
            unreachable!()
        };
        let id = self.once(Node::Konst(word))?;
        Ok(id)
    }

    /// What a call for an operator comes to.
    pub(crate) fn place(&mut self, node: Node) -> Result<NodeId, Memory>
        requires operator { IsOperator node }
        requires fits { IsFitting (shape_of self.old) (widths_of self.old) node }
        ensures answers { IfOk result (Answers self.old self.new node) }
        ensures shows { IfOk result (Shows self.old self.new (width_in self.old node)
            (λ g. value_in self.old g node)) }
        ensures adds { AddsNodes self.old self.new }
        ensures same { OnErr result (self.new ≡ self.old) }
    {
        match sound_fold(&self.net, &node) {
            Folded::Same(id) => Ok(id),
            Folded::Number(width, value) => Ok(self.number(width, value)?),
            Folded::Kept(kept) => Ok(self.once(kept)?),
        }
    }
}
