//! The builders of nodes.
#![tactic(auto, using(crate::proofs::Stays::theres), unfolding(crate::specs::Net::width_at, crate::specs::Net::value_at))]

ghost use Rattle.std.specs.Prelude.{
  ◌≡◌,
  ◌==◌,
  nat_lt,
  bit_and,
  bit_or,
  bit_xor,
  if◌then◌else◌,
  ◌+◌,
  ◌<◌,
  ◌≤◌,
  ◌^◌,
};
ghost use Rattle.std.specs.Prelude.{[], ◌++◌, ◌∷◌, length, IfOk, OnOk, OnErr};
ghost use Rattle.fv_text.specs.Word.{number};
ghost use Rattle.fv_bits.specs.Bits as num;
ghost use Rattle.wn_net.specs.Width.{IsFitting};
ghost use Rattle.wn_net.specs.Net.{IsNode, IsNodeOf, shape_of, widths_of, width_at, value_at};
ghost use Rattle.wn_net.specs.Changes.{Builds, width_in, value_in};
ghost use Rattle.wn_net.specs.declared.node.Node.TheVariants as node;

use crate::net::Net;
use crate::node::{Node, NodeId};
use fv_text::{Memory, Word};

/// Adds a node with its width behind the others.
pub(crate) fn push_node(
    nodes: &mut Vec<Node>,
    widths: &mut Vec<u32>,
    node: Node,
    width: u32,
) -> Result<NodeId, Memory>
    ensures last { IfOk result (λ id. id ≡ length nodes.old.items) }
    ensures nodes { OnOk result (nodes.new.items ≡ nodes.old.items ++ node ∷ []) }
    ensures widths { OnOk result (widths.new.items ≡ widths.old.items ++ width ∷ []) }
    ensures same_nodes { OnErr result (nodes.new.items ≡ nodes.old.items) }
    ensures same_widths { OnErr result (widths.new.items ≡ widths.old.items) }
{
    let id = nodes.len() as u64;
    widths.push(width)?;
    if nodes.push(node).is_err() {
        widths.pop();
        return Err(Memory);
    }
    Ok(id)
}

impl Net {
    /// Adds a node that fits.
    pub(crate) fn push(&mut self, node: Node, width: u32) -> Result<NodeId, Memory>
        requires fits { IsFitting (shape_of self.old) (widths_of self.old) node }
        requires width { width ≡ width_in self.old node }
        ensures built { IfOk result (Builds self.old self.new node (width_in self.old node)
            (λ g. value_in self.old g node)) }
        ensures same { OnErr result (self.new ≡ self.old) }
    {
        let id = push_node(&mut self.nodes, &mut self.widths, node, width)?;
        Ok(id)
    }

    /// Each bit of both.
    pub fn and(&mut self, a: NodeId, b: NodeId) -> Result<NodeId, Memory>
        requires left { IsNode self.old a }
        requires right { IsNodeOf self.old (width_at self.old a) b }
        ensures built { IfOk result (Builds self.old self.new (node.And a b) (width_at self.old a)
            (λ g. bit_and (value_at self.old g a) (value_at self.old g b))) }
        ensures same { OnErr result (self.new ≡ self.old) }
    {
        let width = self.width(a);
        self.push(Node::And(a, b), width)
    }

    /// Each bit of one or both.
    pub fn or(&mut self, a: NodeId, b: NodeId) -> Result<NodeId, Memory>
        requires left { IsNode self.old a }
        requires right { IsNodeOf self.old (width_at self.old a) b }
        ensures built { IfOk result (Builds self.old self.new (node.Or a b) (width_at self.old a)
            (λ g. bit_or (value_at self.old g a) (value_at self.old g b))) }
        ensures same { OnErr result (self.new ≡ self.old) }
    {
        let width = self.width(a);
        self.push(Node::Or(a, b), width)
    }

    /// Each bit of exactly one.
    pub fn xor(&mut self, a: NodeId, b: NodeId) -> Result<NodeId, Memory>
        requires left { IsNode self.old a }
        requires right { IsNodeOf self.old (width_at self.old a) b }
        ensures built { IfOk result (Builds self.old self.new (node.Xor a b) (width_at self.old a)
            (λ g. bit_xor (value_at self.old g a) (value_at self.old g b))) }
        ensures same { OnErr result (self.new ≡ self.old) }
    {
        let width = self.width(a);
        self.push(Node::Xor(a, b), width)
    }

    /// `a + b`, cut to the width.
    pub fn add(&mut self, a: NodeId, b: NodeId) -> Result<NodeId, Memory>
        requires left { IsNode self.old a }
        requires right { IsNodeOf self.old (width_at self.old a) b }
        ensures built { IfOk result (Builds self.old self.new (node.Add a b) (width_at self.old a)
            (λ g. num.sum (width_at self.old a) (value_at self.old g a) (value_at self.old g b))) }
        ensures same { OnErr result (self.new ≡ self.old) }
    {
        let width = self.width(a);
        self.push(Node::Add(a, b), width)
    }

    /// `a - b`, cut to the width.
    pub fn sub(&mut self, a: NodeId, b: NodeId) -> Result<NodeId, Memory>
        requires left { IsNode self.old a }
        requires right { IsNodeOf self.old (width_at self.old a) b }
        ensures built { IfOk result (Builds self.old self.new (node.Sub a b) (width_at self.old a)
            (λ g. num.difference (width_at self.old a) (value_at self.old g a) (value_at self.old g b))) }
        ensures same { OnErr result (self.new ≡ self.old) }
    {
        let width = self.width(a);
        self.push(Node::Sub(a, b), width)
    }

    /// `a * b`, cut to the width.
    pub fn mul(&mut self, a: NodeId, b: NodeId) -> Result<NodeId, Memory>
        requires left { IsNode self.old a }
        requires right { IsNodeOf self.old (width_at self.old a) b }
        ensures built { IfOk result (Builds self.old self.new (node.Mul a b) (width_at self.old a)
            (λ g. num.product (width_at self.old a) (value_at self.old g a) (value_at self.old g b))) }
        ensures same { OnErr result (self.new ≡ self.old) }
    {
        let width = self.width(a);
        self.push(Node::Mul(a, b), width)
    }

    /// 1 where both are equal, and else 0, in one bit.
    pub fn eq(&mut self, a: NodeId, b: NodeId) -> Result<NodeId, Memory>
        requires left { IsNode self.old a }
        requires right { IsNodeOf self.old (width_at self.old a) b }
        ensures built { IfOk result (Builds self.old self.new (node.Eq a b) 1
            (λ g. num.bit (value_at self.old g a == value_at self.old g b))) }
        ensures same { OnErr result (self.new ≡ self.old) }
    {
        self.push(Node::Eq(a, b), 1)
    }

    /// 1 where `a` is less than `b`, and else 0, in one bit.
    pub fn ult(&mut self, a: NodeId, b: NodeId) -> Result<NodeId, Memory>
        requires left { IsNode self.old a }
        requires right { IsNodeOf self.old (width_at self.old a) b }
        ensures built { IfOk result (Builds self.old self.new (node.Ult a b) 1
            (λ g. num.bit (nat_lt (value_at self.old g a) (value_at self.old g b)))) }
        ensures same { OnErr result (self.new ≡ self.old) }
    {
        self.push(Node::Ult(a, b), 1)
    }

    /// 1 where `a` is less than `b`, both read in two's complement, and else 0, in one bit.
    pub fn slt(&mut self, a: NodeId, b: NodeId) -> Result<NodeId, Memory>
        requires left { IsNode self.old a }
        requires right { IsNodeOf self.old (width_at self.old a) b }
        ensures built { IfOk result (Builds self.old self.new (node.Slt a b) 1
            (λ g. num.bit (num.is_less_signed (width_at self.old a) (value_at self.old g a)
            (value_at self.old g b)))) }
        ensures same { OnErr result (self.new ≡ self.old) }
    {
        self.push(Node::Slt(a, b), 1)
    }

    /// `a` moved to the left by `b`, cut to the width of `a`.
    pub fn shl(&mut self, a: NodeId, b: NodeId) -> Result<NodeId, Memory>
        requires left { IsNode self.old a }
        requires right { IsNode self.old b }
        ensures built { IfOk result (Builds self.old self.new (node.Shl a b) (width_at self.old a)
            (λ g. num.shifted_left (width_at self.old a) (value_at self.old g a) (value_at self.old g b))) }
        ensures same { OnErr result (self.new ≡ self.old) }
    {
        let width = self.width(a);
        self.push(Node::Shl(a, b), width)
    }

    /// `a` moved to the right by `b`, filled with 0.
    pub fn lshr(&mut self, a: NodeId, b: NodeId) -> Result<NodeId, Memory>
        requires left { IsNode self.old a }
        requires right { IsNode self.old b }
        ensures built { IfOk result (Builds self.old self.new (node.Lshr a b) (width_at self.old a)
            (λ g. num.shifted_right (value_at self.old g a) (value_at self.old g b))) }
        ensures same { OnErr result (self.new ≡ self.old) }
    {
        let width = self.width(a);
        self.push(Node::Lshr(a, b), width)
    }

    /// `a` moved to the right by `b`, filled with its sign bit.
    pub fn ashr(&mut self, a: NodeId, b: NodeId) -> Result<NodeId, Memory>
        requires left { IsNode self.old a }
        requires right { IsNode self.old b }
        ensures built { IfOk result (Builds self.old self.new (node.Ashr a b) (width_at self.old a)
            (λ g. num.arithmetic_right (width_at self.old a) (value_at self.old g a) (value_at self.old g b))) }
        ensures same { OnErr result (self.new ≡ self.old) }
    {
        let width = self.width(a);
        self.push(Node::Ashr(a, b), width)
    }

    /// A number.
    pub fn konst(&mut self, word: Word) -> Result<NodeId, Memory>
        ensures built { IfOk result (Builds self.old self.new (node.Konst word) word.width
            (λ g. number word)) }
        ensures same { OnErr result (self.new ≡ self.old) }
    {
        self.push(Node::Konst(word), word.width())
    }

    /// Each bit turned.
    pub fn not(&mut self, a: NodeId) -> Result<NodeId, Memory>
        requires { IsNode self.old a }
        ensures built { IfOk result (Builds self.old self.new (node.Not a) (width_at self.old a)
            (λ g. num.complement (width_at self.old a) (value_at self.old g a))) }
        ensures same { OnErr result (self.new ≡ self.old) }
    {
        let width = self.width(a);
        self.push(Node::Not(a), width)
    }

    /// The bits of `a` in front of those of `b`.
    pub fn concat(&mut self, a: NodeId, b: NodeId) -> Result<NodeId, Memory>
        requires left { IsNode self.old a }
        requires right { IsNode self.old b }
        requires few { width_at self.old a + width_at self.old b ≤ 128 }
        ensures built { IfOk result (Builds self.old self.new (node.Concat a b)
            (width_at self.old a + width_at self.old b)
            (λ g. num.joined (width_at self.old b) (value_at self.old g a) (value_at self.old g b))) }
        ensures same { OnErr result (self.new ≡ self.old) }
    {
        let width = self.width(a) + self.width(b);
        self.push(Node::Concat(a, b), width)
    }

    /// `yes` where `cond`, of one bit, is 1, and else `no`.
    pub fn mux(&mut self, cond: NodeId, yes: NodeId, no: NodeId) -> Result<NodeId, Memory>
        requires cond { IsNodeOf self.old 1 cond }
        requires yes { IsNode self.old yes }
        requires no { IsNodeOf self.old (width_at self.old yes) no }
        ensures built { IfOk result (Builds self.old self.new (node.Mux cond yes no) (width_at self.old yes)
            (λ g. if value_at self.old g cond == 1 then value_at self.old g yes else value_at self.old g no)) }
        ensures same { OnErr result (self.new ≡ self.old) }
    {
        let width = self.width(yes);
        self.push(Node::Mux(cond, yes, no), width)
    }

    /// So many bits of `a`, from the bit `low` on.
    pub fn slice(&mut self, a: NodeId, low: u32, width: u32) -> Result<NodeId, Memory>
        requires there { IsNode self.old a }
        requires some { 1 ≤ width }
        requires within { low + width ≤ width_at self.old a }
        ensures built { IfOk result (Builds self.old self.new (node.Slice a low width) width
            (λ g. num.part low width (value_at self.old g a))) }
        ensures same { OnErr result (self.new ≡ self.old) }
    {
        self.push(Node::Slice(a, low, width), width)
    }

    /// `a` in so many bits, with 0 in front.
    pub fn zext(&mut self, a: NodeId, width: u32) -> Result<NodeId, Memory>
        requires there { IsNode self.old a }
        requires wider { width_at self.old a ≤ width }
        requires few { width ≤ 128 }
        ensures built { IfOk result (Builds self.old self.new (node.Zext a width) width
            (λ g. value_at self.old g a)) }
        ensures same { OnErr result (self.new ≡ self.old) }
    {
        self.push(Node::Zext(a, width), width)
    }

    /// `a` in so many bits, with its sign bit in front.
    pub fn sext(&mut self, a: NodeId, width: u32) -> Result<NodeId, Memory>
        requires there { IsNode self.old a }
        requires wider { width_at self.old a ≤ width }
        requires few { width ≤ 128 }
        ensures built { IfOk result (Builds self.old self.new (node.Sext a width) width
            (λ g. num.sign_extended (width_at self.old a) width (value_at self.old g a))) }
        ensures same { OnErr result (self.new ≡ self.old) }
    {
        self.push(Node::Sext(a, width), width)
    }
}
