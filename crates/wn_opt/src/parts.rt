//! The builders of inputs, registers and memories, and what changes them: as those of a net.

ghost use Rattle.std.specs.Prelude.{
  ◌≡◌,
  ◌-◌,
  ◌<◌,
  ◌≤◌,
  ◌^◌,
  [],
  ◌++◌,
  ◌∷◌,
  length,
  IfOk,
  OnOk,
  OnErr,
};
ghost use Rattle.std.specs.List.{AllByRecursion};
ghost use Rattle.wn_net.specs.Net.{IsNode, IsNodeOf, IsInitOf, IsWriteOf};
ghost use Rattle.wn_net.specs.Changes.{Keeps, Grows, BuildsInput, BuildsReg, with_mem, with_next, with_write};
ghost use Rattle.wn_net.specs.Changes.{reg_width, mem_width};

use crate::hashed::Hashed;
use fv_text::{List, Memory};
use wn_net::{Init, InputKind, MemWrite, NodeId};

impl Hashed {
    /// An input, and the node that reads it.
    pub fn input(&mut self, width: u32, kind: InputKind) -> Result<NodeId, Memory>
        requires some { 1 ≤ width }
        requires few { width ≤ 128 }
        requires room { length self.old.inputs < 2 ^ 32 - 1 }
        ensures built { IfOk result (BuildsInput self.old self.new (record { width = width; kind = kind })) }
        ensures same { OnErr result (self.new ≡ self.old) }
    {
        self.net.input(width, kind)
    }

    /// A register, and the node that reads it, which is its next value until `set_next` gives another.
    pub fn reg(&mut self, width: u32, init: Init) -> Result<NodeId, Memory>
        requires some { 1 ≤ width }
        requires few { width ≤ 128 }
        requires init { IsInitOf width init }
        requires room { length self.old.regs < 2 ^ 32 - 1 }
        ensures built { IfOk result (BuildsReg self.old self.new
            (record { width = width; init = init; next = length self.old.nodes })) }
        ensures same { OnErr result (self.new ≡ self.old) }
    {
        self.net.reg(width, init)
    }

    /// Gives a register its next value.
    pub fn set_next(&mut self, reg: u32, next: NodeId)
        requires reg { reg < length self.old.regs }
        requires next { IsNodeOf self.old (reg_width self.old reg) next }
        ensures new { self.new ≡ record self.old { regs = with_next reg next self.old.regs } }
        ensures keeps { Keeps self.old self.new }
        ensures grows { Grows self.old self.new }
    {
        self.net.set_next(reg, next);
    }

    /// A memory of words of a width, without writes. The answer is its number.
    pub fn mem(&mut self, width: u32, words: u32, init: List<Init>) -> Result<u32, Memory>
        requires some { 1 ≤ width }
        requires few { width ≤ 128 }
        requires words { 1 ≤ words }
        requires each { length init ≡ words }
        requires init { AllByRecursion (IsInitOf width) init }
        requires room { length self.old.mems < 2 ^ 32 - 1 }
        ensures last { IfOk result (λ m. m ≡ length self.old.mems) }
        ensures new { OnOk result (self.new ≡ with_mem self.old
            (record { width = width; words = words; init = init; writes = [] })) }
        ensures grows { Grows self.old self.new }
        ensures same { OnErr result (self.new ≡ self.old) }
    {
        self.net.mem(width, words, init)
    }

    /// Adds a write to a memory, behind its others.
    pub fn mem_write(&mut self, mem: u32, write: MemWrite) -> Result<(), Memory>
        requires mem { mem < length self.old.mems }
        requires write { IsWriteOf self.old (mem_width self.old mem) write }
        ensures new { OnOk result (self.new ≡ record self.old { mems = with_write mem write self.old.mems }) }
        ensures keeps { Keeps self.old self.new }
        ensures grows { Grows self.old self.new }
        ensures same { OnErr result (self.new ≡ self.old) }
    {
        self.net.mem_write(mem, write)
    }

    /// Adds a node to those that are to be other than 0 in each cycle.
    pub fn assume(&mut self, node: NodeId) -> Result<(), Memory>
        requires { IsNode self.old node }
        ensures new { OnOk result (self.new ≡ record self.old { assumes = self.old.assumes ++ node ∷ [] }) }
        ensures keeps { Keeps self.old self.new }
        ensures grows { Grows self.old self.new }
        ensures same { OnErr result (self.new ≡ self.old) }
    {
        self.net.assume(node)
    }
}
