use crate::node::NodeId;
use fv_text::List;

/// What a register or a word of a memory begins with.
#[derive(Debug, Clone, Copy, PartialEq, Eq)]
pub enum Init {
    /// Any number of its width.
    Free,
    Known(u128),
}

/// A register.
#[derive(Debug, Clone, Copy, PartialEq, Eq)]
pub struct Reg {
    /// In bits, from 1 to 128.
    pub width: u32,
    pub init: Init,
    /// The node whose value it has in the next cycle.
    pub next: NodeId,
}

/// A write to a memory.
#[derive(Debug, Clone, Copy, PartialEq, Eq)]
pub struct MemWrite {
    /// Of one bit: the write acts where it is 1.
    pub enable: NodeId,
    /// A write past the last word is dropped.
    pub addr: NodeId,
    /// The bits that are written.
    pub mask: NodeId,
    pub value: NodeId,
}

/// A memory.
#[derive(Debug, Drop)]
pub struct Mem {
    /// Of a word, in bits, from 1 to 128.
    pub width: u32,
    /// How many words it has, at least one.
    pub words: u32,
    /// What each word begins with.
    pub init: List<Init>,
    /// They act at the end of a cycle, one after the other.
    pub writes: List<MemWrite>,
}

/// When an input may change.
#[derive(Debug, Clone, Copy, PartialEq, Eq)]
pub enum InputKind {
    /// Any number in each cycle.
    EachCycle,
    /// One number for all cycles.
    Once,
    /// 1 in the first cycle, and 0 later.
    Reset,
}

/// An input.
#[derive(Debug, Clone, Copy, PartialEq, Eq)]
pub struct Input {
    /// In bits, from 1 to 128.
    pub width: u32,
    pub kind: InputKind,
}

/// The numbers in the registers and in the words of the memories.
#[derive(Debug, Drop)]
pub struct State {
    pub regs: List<u128>,
    pub mems: List<List<u128>>,
}
