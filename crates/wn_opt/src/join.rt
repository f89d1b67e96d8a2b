//! The next values, the writes and the assumptions that stay.
ghost use Rattle.std.specs.Prelude.{◌≡◌, ℕ, ◌<◌, ◌^◌, ◌++◌, ◌∷◌, [], Some, None, true, false, length, map, OnOk};
ghost use Rattle.wn_net.specs.Net.{IsNode, IsNodeOf};
ghost use Rattle.wn_net.specs.Changes.{Keeps, mem_width, reg_width, with_next};
ghost use Rattle.wn_opt.specs.Cone as spec;
ghost use Rattle.wn_opt.specs.Parts.{AddsWrites, AreBare, AreCopied, AreMemsPlaced, AreNextsPlaced, AreWritesFit};
ghost use Rattle.wn_opt.specs.Parts.{HasAssumes, HasNexts, HasRegs, HasWrites};

use crate::copy::place;
use fv_text::Memory;
use wn_net::{Mem, MemWrite, Net, NodeId, Reg};

/// Gives a register its next value, where it is marked.
fn join_reg(part: &mut Net, marked: bool, places: &[Option<NodeId>], index: usize, reg: &Reg)
    requires few { index < 2 ^ 32 }
    requires there { marked ≡ true → index < length part.old.regs }
    requires fits { marked ≡ true → IsNodeOf part.old (reg_width part.old index) (spec.place places.now reg.now.next) }
    ensures skip { marked ≡ false → part.new ≡ part.old }
    ensures set { marked ≡ true → part.new ≡ record part.old {
      regs = with_next index (spec.place places.now reg.now.next) part.old.regs;
    } }
    ensures keeps { marked ≡ true → Keeps part.old part.new }
{
    if !marked {
        return;
    }
    part.set_next(index as u32, place(places, reg.next));
}

/// Gives the marked registers their next values.
pub(crate) fn join_regs(
    part: &mut Net,
    net: &Net,
    nodes: &[bool],
    marks: &[bool],
    places: &[Option<NodeId>],
)
    requires regs { HasRegs net.now part.old }
    requires copied { AreCopied net.now nodes.now part.old places.now }
    requires placed { AreNextsPlaced net.now marks.now places.now }
    requires each { length marks.now ≡ length net.now.regs }
    ensures { HasNexts net.now marks.now places.now part.old part.new (length net.now.regs) }
{
    for (index, reg) in net.regs().iter().enumerate() {
        join_reg(part, marks[index], places, index, reg);
    }
}

fn renamed_write(places: &[Option<NodeId>], write: &MemWrite) -> MemWrite
    ensures { result ≡ spec.renamed_write places.now write.now }
{
    MemWrite {
        enable: place(places, write.enable),
        addr: place(places, write.addr),
        mask: place(places, write.mask),
        value: place(places, write.value),
    }
}

/// Gives a memory writes.
fn add_writes(
    part: &mut Net,
    mem: u32,
    writes: &[MemWrite],
    places: &[Option<NodeId>],
) -> Result<(), Memory>
    requires there { mem < length part.old.mems }
    requires fit { AreWritesFit part.old (mem_width part.old mem) places.now writes.now }
    ensures { OnOk result (AddsWrites part.old part.new mem (map (spec.renamed_write places.now) writes.now)) }
{
    for write in writes {
        part.mem_write(mem, renamed_write(places, write))?;
    }
    Ok(())
}

/// Gives a memory its writes, where it is marked.
fn join_mem(
    part: &mut Net,
    marked: bool,
    places: &[Option<NodeId>],
    index: usize,
    mem: &Mem,
) -> Result<(), Memory>
    requires few { index < 2 ^ 32 }
    requires there { marked ≡ true → index < length part.old.mems }
    requires fit { marked ≡ true → AreWritesFit part.old (mem_width part.old index) places.now mem.now.writes }
    ensures skip { OnOk result (marked ≡ false → part.new ≡ part.old) }
    ensures set { OnOk result (marked ≡ true → AddsWrites part.old part.new index
        (map (spec.renamed_write places.now) mem.now.writes)) }
{
    if marked {
        add_writes(part, index as u32, mem.writes.as_slice(), places)?;
        return Ok(());
    }
    Ok(())
}

/// Gives the marked memories their writes.
pub(crate) fn join_mems(
    part: &mut Net,
    net: &Net,
    nodes: &[bool],
    marks: &[bool],
    places: &[Option<NodeId>],
) -> Result<(), Memory>
    requires bare { AreBare net.now marks.now part.old }
    requires copied { AreCopied net.now nodes.now part.old places.now }
    requires placed { AreMemsPlaced net.now marks.now places.now }
    requires each { length marks.now ≡ length net.now.mems }
    ensures { OnOk result (HasWrites net.now marks.now places.now part.old part.new (length net.now.mems)) }
{
    for (index, mem) in net.mems().iter().enumerate() {
        join_mem(part, marks[index], places, index, mem)?;
    }
    Ok(())
}

/// Adds an assumption, where it has a new number.
fn join_assume(part: &mut Net, place: Option<NodeId>) -> Result<(), Memory>
    requires { (at : ℕ) → place ≡ Some at → IsNode part.old at }
    ensures skip { OnOk result (place ≡ None → part.new ≡ part.old) }
    ensures set { OnOk result ((at : ℕ) → place ≡ Some at
        → part.new ≡ record part.old { assumes = part.old.assumes ++ at ∷ [] }) }
    ensures keeps { OnOk result ((at : ℕ) → place ≡ Some at → Keeps part.old part.new) }
{
    match place {
        Some(at) => {
            part.assume(at)?;
            Ok(())
        }
        None => Ok(()),
    }
}

/// Adds the assumptions whose nodes have new numbers.
pub(crate) fn join_assumes(
    part: &mut Net,
    net: &Net,
    nodes: &[bool],
    places: &[Option<NodeId>],
) -> Result<(), Memory>
    requires copied { AreCopied net.now nodes.now part.old places.now }
    requires each { length places.now ≡ length net.now.nodes }
    ensures { OnOk result (HasAssumes net.now places.now part.old part.new (length net.now.assumes)) }
{
    for id in net.assumes() {
        join_assume(part, places[*id as usize])?;
    }
    Ok(())
}
