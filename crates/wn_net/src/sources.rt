//! The builders of inputs, registers and memories, and what changes them.
#![tactic(auto, using(crate::proofs::Begun::unchanged))]

ghost use Rattle.std.specs.Prelude.{
  ◌≡◌,
  ◌+◌,
  ◌-◌,
  ◌<◌,
  ◌≤◌,
  ◌^◌,
  [],
  ◌++◌,
  ◌∷◌,
  length,
  IfOk,
  OnOk,
  OnErr,
};
ghost use Rattle.std.specs.List.{AllByRecursion};
ghost use Rattle.wn_net.specs.Value.{word_at, words_of};
ghost use Rattle.wn_net.specs.Net.{IsNode, IsNodeOf, IsInitOf, IsWriteOf, width_at, value_at};
ghost use Rattle.wn_net.specs.Changes.{Keeps, Grows, Builds, BuildsInput, BuildsReg, with_mem, with_next, with_write};
ghost use Rattle.wn_net.specs.Changes.{reg_width, mem_width};
ghost use Rattle.wn_net.specs.declared.node.Node.TheVariants as node;

use crate::build::push_node;
use crate::net::Net;
use crate::node::{Node, NodeId};
use crate::parts::{Init, Input, InputKind, Mem, MemWrite, Reg};
use fv_text::{List, Memory};

impl Net {
    /// An input, and the node that reads it.
    pub fn input(&mut self, width: u32, kind: InputKind) -> Result<NodeId, Memory>
        requires some { 1 ≤ width }
        requires few { width ≤ 128 }
        requires room { length self.old.inputs < 2 ^ 32 - 1 }
        ensures built { IfOk result (BuildsInput self.old self.new (record { width = width; kind = kind })) }
        ensures same { OnErr result (self.new ≡ self.old) }
    {
        let count = self.inputs.len();
        self.inputs.push(Input { width, kind })?;
        match push_node(
            &mut self.nodes,
            &mut self.widths,
            Node::Input(count as u32),
            width,
        ) {
            Ok(id) => Ok(id),
            Err(fault) => {
                self.inputs.truncate(count);
                Err(fault)
            }
        }
    }

    /// A register, and the node that reads it, which is its next value until `set_next` gives another.
    pub fn reg(&mut self, width: u32, init: Init) -> Result<NodeId, Memory>
        requires some { 1 ≤ width }
        requires few { width ≤ 128 }
        requires init { IsInitOf width init }
        requires room { length self.old.regs < 2 ^ 32 - 1 }
        ensures built { IfOk result (BuildsReg self.old self.new
            (record { width = width; init = init; next = length self.old.nodes })) }
        ensures same { OnErr result (self.new ≡ self.old) }
    {
        let count = self.regs.len();
        let next = self.nodes.len() as u64;
        self.regs.push(Reg { width, init, next })?;
        match push_node(
            &mut self.nodes,
            &mut self.widths,
            Node::Reg(count as u32),
            width,
        ) {
            Ok(id) => Ok(id),
            Err(fault) => {
                self.regs.truncate(count);
                Err(fault)
            }
        }
    }

    /// The word of a memory at an address; 0 past the last word.
    #[tactic(auto, unfolding(crate::specs::Net::width_at, crate::specs::Net::value_at))]
    pub fn read(&mut self, mem: u32, addr: NodeId) -> Result<NodeId, Memory>
        requires mem { mem < length self.old.mems }
        requires addr { IsNode self.old addr }
        ensures built { IfOk result (Builds self.old self.new (node.Read mem addr) (mem_width self.old mem)
            (λ g. word_at (words_of g mem) (value_at self.old g addr))) }
        ensures same { OnErr result (self.new ≡ self.old) }
    {
        let width = self.mems[mem as usize].width;
        self.push(Node::Read(mem, addr), width)
    }

    /// Gives a register its next value.
    pub fn set_next(&mut self, reg: u32, next: NodeId)
        requires reg { reg < length self.old.regs }
        requires next { IsNodeOf self.old (reg_width self.old reg) next }
        ensures new { self.new ≡ record self.old { regs = with_next reg next self.old.regs } }
        ensures keeps { Keeps self.old self.new }
        ensures grows { Grows self.old self.new }
    {
        self.regs[reg as usize].next = next;
    }

    /// A memory of words of a width, without writes. The answer is its number.
    pub fn mem(&mut self, width: u32, words: u32, init: List<Init>) -> Result<u32, Memory>
        requires some { 1 ≤ width }
        requires few { width ≤ 128 }
        requires words { 1 ≤ words }
        requires each { length init ≡ words }
        requires init { AllByRecursion (IsInitOf width) init }
        requires room { length self.old.mems < 2 ^ 32 - 1 }
        ensures last { IfOk result (λ m. m ≡ length self.old.mems) }
        ensures new { OnOk result (self.new ≡ with_mem self.old
            (record { width = width; words = words; init = init; writes = [] })) }
        ensures grows { Grows self.old self.new }
        ensures same { OnErr result (self.new ≡ self.old) }
    {
        let count = self.mems.len();
        let writes = List::new(self.alloc);
        self.mems.push(Mem {
            width,
            words,
            init,
            writes,
        })?;
        Ok(count as u32)
    }

    /// Adds a write to a memory, behind its others.
    pub fn mem_write(&mut self, mem: u32, write: MemWrite) -> Result<(), Memory>
        requires mem { mem < length self.old.mems }
        requires write { IsWriteOf self.old (mem_width self.old mem) write }
        ensures new { OnOk result (self.new ≡ record self.old { mems = with_write mem write self.old.mems }) }
        ensures keeps { Keeps self.old self.new }
        ensures grows { Grows self.old self.new }
        ensures same { OnErr result (self.new ≡ self.old) }
    {
        let changed = &mut self.mems[mem as usize];
        changed.writes.push(write)?;
        Ok(())
    }

    /// Adds a node to those that are to be other than 0 in each cycle.
    pub fn assume(&mut self, node: NodeId) -> Result<(), Memory>
        requires { IsNode self.old node }
        ensures new { OnOk result (self.new ≡ record self.old { assumes = self.old.assumes ++ node ∷ [] }) }
        ensures keeps { Keeps self.old self.new }
        ensures grows { Grows self.old self.new }
        ensures same { OnErr result (self.new ≡ self.old) }
    {
        self.assumes.push(node)?;
        Ok(())
    }
}
