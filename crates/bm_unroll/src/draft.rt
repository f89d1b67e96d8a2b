//! Frames that are being made.
ghost use Rattle.std.specs.Prelude.{◌≡◌, ℕ, ◌+◌, ◌<◌, ◌≤◌, ◌^◌, [], IfOk, OnOk};
ghost use Rattle.wn_net.specs.Net.{Netlist};
ghost use Rattle.bm_unroll.specs.Draft.{Extends, HasRoom, IsDraft, Means, rank};
ghost use Rattle.bm_unroll.specs.Frames.{IsChoice, chosen, source_width};

use crate::frames::Source;
use fv_text::{Memory, Word};
use std::alloc::Global;
use wn_net::{InputKind, Net, NodeId};

/// A net whose inputs are the sources.
#[derive(Debug, Drop)]
pub(crate) struct Draft {
    pub(crate) net: Net,
    pub(crate) sources: Vec<Source>,
    pub(crate) widths: Vec<u32>,
}

impl Draft {
    pub(crate) fn new(alloc: Global) -> Draft
        ensures draft { (net : Netlist) (cycle : ℕ) → IsDraft net cycle 0 result }
        ensures inputs { result.net.inputs ≡ [] }
        ensures none { result.sources.items ≡ [] }
    {
        Draft {
            net: Net::new(alloc),
            sources: Vec::new(alloc),
            widths: Vec::new(alloc),
        }
    }

    /// A source, and the node that has its number.
    pub(crate) fn source(&mut self, source: Source, width: u32) -> Result<NodeId, Memory>
        requires some { 1 ≤ width }
        requires few { width ≤ 128 }
        requires room { HasRoom self.old 1 }
        ensures extends { OnOk result (Extends self.old self.new 1) }
        ensures means { IfOk result (Means self.new width (λ ch. chosen ch source)) }
        ensures draft { OnOk result ((net : Netlist) (cycle bound : ℕ) → IsDraft net cycle bound self.old
            → IsChoice net cycle source → width ≡ source_width net source → bound ≤ rank source
            → IsDraft net cycle (rank source + 1) self.new) }
    {
        self.sources.push(source)?;
        self.widths.push(width)?;
        let id = self.net.input(width, InputKind::EachCycle)?;
        Ok(id)
    }

    /// A node that has a known number.
    pub(crate) fn known(&mut self, width: u32, number: u128) -> Result<NodeId, Memory>
        requires some { 1 ≤ width }
        requires few { width ≤ 128 }
        requires room { HasRoom self.old 0 }
        requires fits { number < 2 ^ width }
        ensures extends { OnOk result (Extends self.old self.new 0) }
        ensures means { IfOk result (Means self.new width (λ ch. number)) }
        ensures draft { OnOk result ((net : Netlist) (cycle bound : ℕ) → IsDraft net cycle bound self.old
            → IsDraft net cycle bound self.new) }
    {
        let Some(word) = Word::new(width, number) else {
            unreachable!()
        };
        let id = self.net.konst(word)?;
        Ok(id)
    }
}
