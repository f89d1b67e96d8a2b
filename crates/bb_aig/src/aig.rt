ghost use Rattle.std.specs.Prelude.{
  ◌≡◌,
  ℕ,
  ◌+◌,
  ◌*◌,
  ◌/◌,
  ◌<◌,
  ◌≤◌,
  ◌^◌,
  ◌&&◌,
  [],
  ◌∷◌,
  length,
  slice_get,
  IfOk,
};
ghost use Rattle.std.specs.Prelude.{OnErr};
ghost use Rattle.bb_aig.specs.Graph as spec;
ghost use Rattle.bb_aig.specs.Graph.{IsLit, IsGraph, Adds, values_of, inputs_of, of_list};
ghost use Rattle.bb_aig.specs.declared.node.AigNode.TheVariants as node;

use crate::node::{AigNode, Lit};
use fv_text::Memory;
use std::alloc::Global;
use std::marker::Model;

/// An and-inverter graph.
///
/// What a gate reads has a lower number, and inputs have their numbers in order.
#[derive(Debug, Drop)]
pub struct Aig {
    /// The nodes behind node 0.
    behind: Vec<AigNode>,
    /// How many of them are inputs.
    inputs: u64,
}

impl Model for Aig {
    ghost use Rattle.std.specs.Prelude.{List, ◌∷◌};
    ghost use Rattle.bb_aig.specs.declared.node.AigNode.{AigNode};
    ghost use Rattle.bb_aig.specs.declared.node.AigNode.TheVariants as node;
    ghost use Rattle.bb_aig.specs.Graph.{IsKept};

    ghost Value = { List AigNode };

    ghost view = { λ a. node.False ∷ a.behind.items };

    ghost invariant = { λ a. IsKept (node.False ∷ a.behind.items) a.inputs };
}

/// At most so many nodes, so that literals stay below `2^63`.
const MOST_NODES: usize = 1 << 62;

/// The value of a literal, by the values of nodes.
fn literal(values: &[bool], lit: Lit) -> bool
    requires { lit < 2 * length values.now }
    ensures { result ≡ spec.literal values.now lit }
{
    let value = values[(lit / 2) as usize];
    if lit % 2 == 1 { !value } else { value }
}

/// The value of an input; false past the last.
fn input_at(inputs: &[bool], number: u64) -> bool
    ensures { result ≡ of_list inputs.now number }
{
    match inputs.get(number as usize) {
        Some(value) => *value,
        None => false,
    }
}

/// The value of a node, by those of the nodes before it.
fn value(node: &AigNode, inputs: &[bool], values: &[bool]) -> bool
    requires { (i : ℕ) × spec.IsFitting (length values.now) i node.now }
    ensures { result ≡ spec.value (of_list inputs.now) values.now node.now }
{
    match node {
        AigNode::False => false,
        AigNode::Input(number) => input_at(inputs, *number),
        AigNode::And(a, b) => literal(values, *a) && literal(values, *b),
    }
}

impl Aig {
    /// A graph with node 0 alone.
    pub fn new(alloc: Global) -> Aig
        ensures { result ≡ node.False ∷ [] }
    {
        Aig {
            behind: Vec::new(alloc),
            inputs: 0,
        }
    }

    /// The number of nodes, node 0 included.
    pub fn len(&self) -> usize
        ensures value { result ≡ length self.now }
        ensures few { result ≤ 2 ^ 62 }
        ensures whole { IsGraph self.now }
    {
        self.behind.len() + 1
    }

    /// None exactly where the index isn't below the length.
    #[tactic(auto, using(crate::proofs::Values::get_first, crate::proofs::Values::get_behind))]
    pub fn node(&self, index: usize) -> Option<AigNode>
        ensures value { result ≡ slice_get self.now index }
        ensures whole { IsGraph self.now }
    {
        let behind = self.behind_false();
        if index == 0 {
            return Some(AigNode::False);
        }
        behind.get(index - 1).copied()
    }

    /// The nodes behind node 0.
    pub fn behind_false(&self) -> &[AigNode]
        ensures value { self.now ≡ node.False ∷ result.now }
        ensures whole { IsGraph self.now }
        ensures few { length self.now ≤ 2 ^ 62 }
    {
        self.behind.as_slice()
    }

    /// The number of inputs.
    pub fn inputs(&self) -> u64
        ensures { result ≡ inputs_of self.now }
    {
        self.inputs
    }

    /// Adds a node that fits, and answers its literal.
    fn push(&mut self, node: AigNode, inputs: u64) -> Result<Lit, Memory>
        requires fits { spec.IsFitting (length self.old) (inputs_of self.old) node }
        requires inputs { inputs ≡ spec.inputs_after (inputs_of self.old) node }
        ensures adds { IfOk result (Adds self.old self.new node) }
        ensures same { OnErr result (self.new ≡ self.old) }
    {
        let count = self.behind.len() + 1;
        if count >= MOST_NODES {
            return Err(Memory);
        }
        self.behind.push(node)?;
        self.inputs = inputs;
        Ok(2 * count as u64)
    }

    /// Adds an input behind the other nodes, and answers its literal. A graph of `2^62` nodes wants memory.
    pub fn input(&mut self) -> Result<Lit, Memory>
        ensures adds { IfOk result (Adds self.old self.new (node.Input (inputs_of self.old))) }
        ensures same { OnErr result (self.new ≡ self.old) }
    {
        let number = self.inputs;
        self.push(AigNode::Input(number), number.saturating_add(1))
    }

    /// Adds the gate of both behind the other nodes, and answers its literal, whatever the graph has already. A graph
    /// of `2^62` nodes wants memory.
    pub fn and(&mut self, a: Lit, b: Lit) -> Result<Lit, Memory>
        requires left { IsLit self.old a }
        requires right { IsLit self.old b }
        ensures adds { IfOk result (Adds self.old self.new (node.And a b)) }
        ensures same { OnErr result (self.new ≡ self.old) }
    {
        let inputs = self.inputs;
        self.push(AigNode::And(a, b), inputs)
    }

    /// Puts the value of each node, where the inputs have these values.
    pub fn eval(&self, inputs: &[bool], values: &mut [bool])
        requires given { length inputs.now ≡ inputs_of self.now }
        requires room { length values.old ≡ length self.now }
        ensures { values.new ≡ values_of self.now (of_list inputs.now) }
    {
        let behind = self.behind_false();
        values[0] = false;
        for (index, node) in behind.iter().enumerate() {
            let value = value(node, inputs, &values[..index + 1]);
            values[index + 1] = value;
        }
    }
}
