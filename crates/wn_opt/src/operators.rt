//! The builders of nodes, each for what its name says.
#![tactic(auto, using(wn_net::proofs::Stays::theres), unfolding(wn_net::specs::Net::width_at, wn_net::specs::Net::value_at))]

ghost use Rattle.std.specs.Prelude.{
  ◌≡◌,
  ◌==◌,
  nat_lt,
  bit_and,
  bit_or,
  bit_xor,
  if◌then◌else◌,
  ◌+◌,
  ◌<◌,
  ◌≤◌,
  length,
};
ghost use Rattle.std.specs.Prelude.{IfOk, OnErr};
ghost use Rattle.fv_text.specs.Word.{number};
ghost use Rattle.fv_bits.specs.Bits as num;
ghost use Rattle.wn_net.specs.Value.{word_at, words_of};
ghost use Rattle.wn_net.specs.Net.{IsNode, IsNodeOf, width_at, value_at};
ghost use Rattle.wn_net.specs.Changes.{AddsNodes, Shows, mem_width};
ghost use Rattle.wn_net.specs.declared.node.Node.TheVariants as node;
ghost use Rattle.wn_opt.specs.Hashing.{Answers};

use crate::hashed::Hashed;
use fv_text::{Memory, Word};
use wn_net::{Node, NodeId};

impl Hashed {
    /// Each bit of both.
    pub fn and(&mut self, a: NodeId, b: NodeId) -> Result<NodeId, Memory>
        requires left { IsNode self.old a }
        requires right { IsNodeOf self.old (width_at self.old a) b }
        ensures answers { IfOk result (Answers self.old self.new (node.And a b)) }
        ensures shows { IfOk result (Shows self.old self.new (width_at self.old a)
            (λ g. bit_and (value_at self.old g a) (value_at self.old g b))) }
        ensures adds { AddsNodes self.old self.new }
        ensures same { OnErr result (self.new ≡ self.old) }
    {
        self.place(Node::And(a, b))
    }

    /// Each bit of one or both.
    pub fn or(&mut self, a: NodeId, b: NodeId) -> Result<NodeId, Memory>
        requires left { IsNode self.old a }
        requires right { IsNodeOf self.old (width_at self.old a) b }
        ensures answers { IfOk result (Answers self.old self.new (node.Or a b)) }
        ensures shows { IfOk result (Shows self.old self.new (width_at self.old a)
            (λ g. bit_or (value_at self.old g a) (value_at self.old g b))) }
        ensures adds { AddsNodes self.old self.new }
        ensures same { OnErr result (self.new ≡ self.old) }
    {
        self.place(Node::Or(a, b))
    }

    /// Each bit of exactly one.
    pub fn xor(&mut self, a: NodeId, b: NodeId) -> Result<NodeId, Memory>
        requires left { IsNode self.old a }
        requires right { IsNodeOf self.old (width_at self.old a) b }
        ensures answers { IfOk result (Answers self.old self.new (node.Xor a b)) }
        ensures shows { IfOk result (Shows self.old self.new (width_at self.old a)
            (λ g. bit_xor (value_at self.old g a) (value_at self.old g b))) }
        ensures adds { AddsNodes self.old self.new }
        ensures same { OnErr result (self.new ≡ self.old) }
    {
        self.place(Node::Xor(a, b))
    }

    /// `a + b`, cut to the width.
    pub fn add(&mut self, a: NodeId, b: NodeId) -> Result<NodeId, Memory>
        requires left { IsNode self.old a }
        requires right { IsNodeOf self.old (width_at self.old a) b }
        ensures answers { IfOk result (Answers self.old self.new (node.Add a b)) }
        ensures shows { IfOk result (Shows self.old self.new (width_at self.old a)
            (λ g. num.sum (width_at self.old a) (value_at self.old g a) (value_at self.old g b))) }
        ensures adds { AddsNodes self.old self.new }
        ensures same { OnErr result (self.new ≡ self.old) }
    {
        self.place(Node::Add(a, b))
    }

    /// `a - b`, cut to the width.
    pub fn sub(&mut self, a: NodeId, b: NodeId) -> Result<NodeId, Memory>
        requires left { IsNode self.old a }
        requires right { IsNodeOf self.old (width_at self.old a) b }
        ensures answers { IfOk result (Answers self.old self.new (node.Sub a b)) }
        ensures shows { IfOk result (Shows self.old self.new (width_at self.old a)
            (λ g. num.difference (width_at self.old a) (value_at self.old g a) (value_at self.old g b))) }
        ensures adds { AddsNodes self.old self.new }
        ensures same { OnErr result (self.new ≡ self.old) }
    {
        self.place(Node::Sub(a, b))
    }

    /// `a * b`, cut to the width.
    pub fn mul(&mut self, a: NodeId, b: NodeId) -> Result<NodeId, Memory>
        requires left { IsNode self.old a }
        requires right { IsNodeOf self.old (width_at self.old a) b }
        ensures answers { IfOk result (Answers self.old self.new (node.Mul a b)) }
        ensures shows { IfOk result (Shows self.old self.new (width_at self.old a)
            (λ g. num.product (width_at self.old a) (value_at self.old g a) (value_at self.old g b))) }
        ensures adds { AddsNodes self.old self.new }
        ensures same { OnErr result (self.new ≡ self.old) }
    {
        self.place(Node::Mul(a, b))
    }

    /// 1 where both are equal, and else 0, in one bit.
    pub fn eq(&mut self, a: NodeId, b: NodeId) -> Result<NodeId, Memory>
        requires left { IsNode self.old a }
        requires right { IsNodeOf self.old (width_at self.old a) b }
        ensures answers { IfOk result (Answers self.old self.new (node.Eq a b)) }
        ensures shows { IfOk result (Shows self.old self.new 1
            (λ g. num.bit (value_at self.old g a == value_at self.old g b))) }
        ensures adds { AddsNodes self.old self.new }
        ensures same { OnErr result (self.new ≡ self.old) }
    {
        self.place(Node::Eq(a, b))
    }

    /// 1 where `a` is less than `b`, and else 0, in one bit.
    pub fn ult(&mut self, a: NodeId, b: NodeId) -> Result<NodeId, Memory>
        requires left { IsNode self.old a }
        requires right { IsNodeOf self.old (width_at self.old a) b }
        ensures answers { IfOk result (Answers self.old self.new (node.Ult a b)) }
        ensures shows { IfOk result (Shows self.old self.new 1
            (λ g. num.bit (nat_lt (value_at self.old g a) (value_at self.old g b)))) }
        ensures adds { AddsNodes self.old self.new }
        ensures same { OnErr result (self.new ≡ self.old) }
    {
        self.place(Node::Ult(a, b))
    }

    /// 1 where `a` is less than `b`, both read in two's complement, and else 0, in one bit.
    pub fn slt(&mut self, a: NodeId, b: NodeId) -> Result<NodeId, Memory>
        requires left { IsNode self.old a }
        requires right { IsNodeOf self.old (width_at self.old a) b }
        ensures answers { IfOk result (Answers self.old self.new (node.Slt a b)) }
        ensures shows { IfOk result (Shows self.old self.new 1
            (λ g. num.bit (num.is_less_signed (width_at self.old a) (value_at self.old g a)
            (value_at self.old g b)))) }
        ensures adds { AddsNodes self.old self.new }
        ensures same { OnErr result (self.new ≡ self.old) }
    {
        self.place(Node::Slt(a, b))
    }

    /// `a` moved to the left by `b`, cut to the width of `a`.
    pub fn shl(&mut self, a: NodeId, b: NodeId) -> Result<NodeId, Memory>
        requires left { IsNode self.old a }
        requires right { IsNode self.old b }
        ensures answers { IfOk result (Answers self.old self.new (node.Shl a b)) }
        ensures shows { IfOk result (Shows self.old self.new (width_at self.old a)
            (λ g. num.shifted_left (width_at self.old a) (value_at self.old g a) (value_at self.old g b))) }
        ensures adds { AddsNodes self.old self.new }
        ensures same { OnErr result (self.new ≡ self.old) }
    {
        self.place(Node::Shl(a, b))
    }

    /// `a` moved to the right by `b`, filled with 0.
    pub fn lshr(&mut self, a: NodeId, b: NodeId) -> Result<NodeId, Memory>
        requires left { IsNode self.old a }
        requires right { IsNode self.old b }
        ensures answers { IfOk result (Answers self.old self.new (node.Lshr a b)) }
        ensures shows { IfOk result (Shows self.old self.new (width_at self.old a)
            (λ g. num.shifted_right (value_at self.old g a) (value_at self.old g b))) }
        ensures adds { AddsNodes self.old self.new }
        ensures same { OnErr result (self.new ≡ self.old) }
    {
        self.place(Node::Lshr(a, b))
    }

    /// `a` moved to the right by `b`, filled with its sign bit.
    pub fn ashr(&mut self, a: NodeId, b: NodeId) -> Result<NodeId, Memory>
        requires left { IsNode self.old a }
        requires right { IsNode self.old b }
        ensures answers { IfOk result (Answers self.old self.new (node.Ashr a b)) }
        ensures shows { IfOk result (Shows self.old self.new (width_at self.old a)
            (λ g. num.arithmetic_right (width_at self.old a) (value_at self.old g a) (value_at self.old g b))) }
        ensures adds { AddsNodes self.old self.new }
        ensures same { OnErr result (self.new ≡ self.old) }
    {
        self.place(Node::Ashr(a, b))
    }

    /// A number.
    pub fn konst(&mut self, word: Word) -> Result<NodeId, Memory>
        ensures answers { IfOk result (Answers self.old self.new (node.Konst word)) }
        ensures shows { IfOk result (Shows self.old self.new word.width
            (λ g. number word)) }
        ensures adds { AddsNodes self.old self.new }
        ensures same { OnErr result (self.new ≡ self.old) }
    {
        self.place(Node::Konst(word))
    }

    /// Each bit turned.
    pub fn not(&mut self, a: NodeId) -> Result<NodeId, Memory>
        requires { IsNode self.old a }
        ensures answers { IfOk result (Answers self.old self.new (node.Not a)) }
        ensures shows { IfOk result (Shows self.old self.new (width_at self.old a)
            (λ g. num.complement (width_at self.old a) (value_at self.old g a))) }
        ensures adds { AddsNodes self.old self.new }
        ensures same { OnErr result (self.new ≡ self.old) }
    {
        self.place(Node::Not(a))
    }

    /// The bits of `a` in front of those of `b`.
    pub fn concat(&mut self, a: NodeId, b: NodeId) -> Result<NodeId, Memory>
        requires left { IsNode self.old a }
        requires right { IsNode self.old b }
        requires few { width_at self.old a + width_at self.old b ≤ 128 }
        ensures answers { IfOk result (Answers self.old self.new (node.Concat a b)) }
        ensures shows { IfOk result (Shows self.old self.new (width_at self.old a + width_at self.old b)
            (λ g. num.joined (width_at self.old b) (value_at self.old g a) (value_at self.old g b))) }
        ensures adds { AddsNodes self.old self.new }
        ensures same { OnErr result (self.new ≡ self.old) }
    {
        self.place(Node::Concat(a, b))
    }

    /// `yes` where `cond`, of one bit, is 1, and else `no`.
    pub fn mux(&mut self, cond: NodeId, yes: NodeId, no: NodeId) -> Result<NodeId, Memory>
        requires cond { IsNodeOf self.old 1 cond }
        requires yes { IsNode self.old yes }
        requires no { IsNodeOf self.old (width_at self.old yes) no }
        ensures answers { IfOk result (Answers self.old self.new (node.Mux cond yes no)) }
        ensures shows { IfOk result (Shows self.old self.new (width_at self.old yes)
            (λ g. if value_at self.old g cond == 1 then value_at self.old g yes else value_at self.old g no)) }
        ensures adds { AddsNodes self.old self.new }
        ensures same { OnErr result (self.new ≡ self.old) }
    {
        self.place(Node::Mux(cond, yes, no))
    }

    /// So many bits of `a`, from the bit `low` on.
    pub fn slice(&mut self, a: NodeId, low: u32, width: u32) -> Result<NodeId, Memory>
        requires there { IsNode self.old a }
        requires some { 1 ≤ width }
        requires within { low + width ≤ width_at self.old a }
        ensures answers { IfOk result (Answers self.old self.new (node.Slice a low width)) }
        ensures shows { IfOk result (Shows self.old self.new width
            (λ g. num.part low width (value_at self.old g a))) }
        ensures adds { AddsNodes self.old self.new }
        ensures same { OnErr result (self.new ≡ self.old) }
    {
        self.place(Node::Slice(a, low, width))
    }

    /// `a` in so many bits, with 0 in front.
    pub fn zext(&mut self, a: NodeId, width: u32) -> Result<NodeId, Memory>
        requires there { IsNode self.old a }
        requires wider { width_at self.old a ≤ width }
        requires few { width ≤ 128 }
        ensures answers { IfOk result (Answers self.old self.new (node.Zext a width)) }
        ensures shows { IfOk result (Shows self.old self.new width
            (λ g. value_at self.old g a)) }
        ensures adds { AddsNodes self.old self.new }
        ensures same { OnErr result (self.new ≡ self.old) }
    {
        self.place(Node::Zext(a, width))
    }

    /// `a` in so many bits, with its sign bit in front.
    pub fn sext(&mut self, a: NodeId, width: u32) -> Result<NodeId, Memory>
        requires there { IsNode self.old a }
        requires wider { width_at self.old a ≤ width }
        requires few { width ≤ 128 }
        ensures answers { IfOk result (Answers self.old self.new (node.Sext a width)) }
        ensures shows { IfOk result (Shows self.old self.new width
            (λ g. num.sign_extended (width_at self.old a) width (value_at self.old g a))) }
        ensures adds { AddsNodes self.old self.new }
        ensures same { OnErr result (self.new ≡ self.old) }
    {
        self.place(Node::Sext(a, width))
    }

    /// The word of a memory at an address; 0 past the last word.
    pub fn read(&mut self, mem: u32, addr: NodeId) -> Result<NodeId, Memory>
        requires mem { mem < length self.old.mems }
        requires addr { IsNode self.old addr }
        ensures answers { IfOk result (Answers self.old self.new (node.Read mem addr)) }
        ensures shows { IfOk result (Shows self.old self.new (mem_width self.old mem)
            (λ g. word_at (words_of g mem) (value_at self.old g addr))) }
        ensures adds { AddsNodes self.old self.new }
        ensures same { OnErr result (self.new ≡ self.old) }
    {
        self.place(Node::Read(mem, addr))
    }
}
