//! Cells that stand by themselves.

ghost use Rattle.std.specs.Prelude.{◌≡◌, ◌≤◌, ◌<◌, ◌+◌, ◌-◌, ◌*◌, ◌^◌, ◌++◌, IfOk, OnOk, length, map};
ghost use Rattle.std.specs.Prelude.{replicate};
ghost use Rattle.vl_size.specs.Table.{IsShaped};
ghost use Rattle.vl_mean.specs.Cells.{cells};
ghost use Rattle.vl_mean.specs.FlatLaw.{IsKept};
ghost use Rattle.vl_lower_spec.specs.Sources.{below};
ghost use Rattle.vl_lower_cell_laws.specs.Keeps.{kept_bits, registers_of};
ghost use Rattle.vl_lower_cell_laws.specs.Listing.{named_registers, register_spot};
ghost use Rattle.vl_lower.specs.Held.{bit_registers};
ghost use Rattle.vl_lower.specs.Added.{Adds, cell_added, cells_added, input_added, zero_added};
ghost use Rattle.vl_lower.specs.Design.{keeping};

use crate::keeping::{has_bit, is_whole};
use crate::node::cell_node;
use crate::sources::Sources;
use fv_text::{List, Memory, Word};
use std::alloc::Global;
use vl_flow_cells::cell_count;
use vl_lower_cell_laws::Keep;
use vl_size::Decl;
use wn_net::{InputKind, Spot};

/// The numbers of so many bits, the lowest first.
fn bits_below(alloc: Global, width: u32) -> Result<List<u32>, Memory>
    ensures { IfOk result (λ bits. bits ≡ below width) }
{
    let mut bits = List::new(alloc);
    for bit in 0..width {
        bits.push(bit)?;
    }
    Ok(bits)
}

/// The spot of a bit where it is kept, and else none.
fn push_kept(
    alloc: Global,
    spots: &mut List<Spot>,
    keep: &Keep,
    bit: u32,
    name: u32,
) -> Result<(), Memory>
    requires { bit < 128 }
    ensures { OnOk result
        (spots.new ≡ spots.old ++ map register_spot (named_registers name (bit_registers keep.now bit))) }
{
    if has_bit(keep.driven, bit) {
        return Ok(());
    }
    let mut bits = List::new(alloc);
    bits.push(bit)?;
    spots.push(Spot { name, bits })?;
    Ok(())
}

/// Spots of the bits that are kept, the highest first.
fn push_bits(
    alloc: Global,
    spots: &mut List<Spot>,
    keep: &Keep,
    width: u32,
    name: u32,
) -> Result<(), Memory>
    requires { width ≤ 128 }
    ensures { OnOk result
        (spots.new ≡ spots.old ++ map register_spot (named_registers name (kept_bits keep.now width))) }
{
    let mut left = width;
    while left > 0 {
        left -= 1;
        push_kept(alloc, spots, keep, left, name)?;
    }
    Ok(())
}

/// Spots of a cell's registers: bits of the name at a place.
fn push_spots(
    alloc: Global,
    spots: &mut List<Spot>,
    keep: &Keep,
    width: u32,
    name: u32,
) -> Result<(), Memory>
    requires { width ≤ 128 }
    ensures { OnOk result
        (spots.new ≡ spots.old ++ map register_spot (named_registers name (registers_of keep.now width))) }
{
    if is_whole(keep, width) {
        let bits = bits_below(alloc, width)?;
        spots.push(Spot { name, bits })?;
        return Ok(());
    }
    Ok(push_bits(alloc, spots, keep, width, name)?)
}

/// A number so many times.
fn push_times(numbers: &mut List<u32>, number: u32, times: usize) -> Result<(), Memory>
    ensures { OnOk result (numbers.new ≡ numbers.old ++ replicate times number) }
{
    for _ in 0..times {
        numbers.push(number)?;
    }
    Ok(())
}

impl Sources {
    /// A cell that drivers give: it begins with 0.
    pub(crate) fn add_zero(&mut self, width: u32) -> Result<(), Memory>
        requires some { 1 ≤ width }
        requires few { width ≤ 128 }
        ensures { OnOk result (Adds self.old self.new (zero_added width)) }
    {
        let Some(zero) = Word::new(width, 0) else {
            unreachable!()
        };
        let node = self.net.konst(zero)?;
        self.cells.push(node)?;
        Ok(())
    }

    /// An input with all bits of the name at a place.
    pub(crate) fn add_input(
        &mut self,
        alloc: Global,
        width: u32,
        kind: InputKind,
        name: u32,
    ) -> Result<(), Memory>
        requires some { 1 ≤ width }
        requires few { width ≤ 128 }
        requires room { length self.old.net.inputs < 2 ^ 32 - 1 }
        ensures { OnOk result (Adds self.old self.new
            (input_added (record { width = width; kind = kind }) name (length self.old.net.inputs))) }
    {
        let node = self.net.input(width, kind)?;
        let bits = bits_below(alloc, width)?;
        self.inputs.push(Spot { name, bits })?;
        self.cells.push(node)?;
        Ok(())
    }

    /// A cell with registers for what is kept of it, bits of the name at a place.
    fn add_cell(&mut self, alloc: Global, keep: &Keep, width: u32, name: u32) -> Result<(), Memory>
        requires some { 1 ≤ width }
        requires few { width ≤ 128 }
        requires room { length self.old.net.regs + 128 < 2 ^ 32 - 1 }
        requires cells { length self.old.cells < 2 ^ 32 }
        ensures { OnOk result (Adds self.old self.new
            (cell_added keep.now width (length self.old.cells) name (length self.old.net.regs))) }
    {
        let node = cell_node(&mut self.net, keep, width)?;
        let before = self.regs.len();
        push_spots(alloc, &mut self.regs, keep, width, name)?;
        let cell = self.cells.len() as u32;
        push_times(&mut self.register_cells, cell, self.regs.len() - before)?;
        self.cells.push(node)?;
        Ok(())
    }

    /// The cells of a name, each with its registers. Their entries stand from a place on.
    pub(crate) fn add_cells(
        &mut self,
        alloc: Global,
        decl: &Decl,
        keeps: &[Keep],
        name: u32,
    ) -> Result<(), Memory>
        requires kept { IsKept decl.now }
        requires shaped { IsShaped decl.now }
        requires there { length self.old.cells + length (cells decl.now) ≤ length keeps.now }
        requires few { length self.old.cells + length (cells decl.now) ≤ 200000 }
        requires name { name ≤ length self.old.cells }
        requires regs { length self.old.net.regs ≤ 128 * length self.old.cells }
        ensures { OnOk result (Adds self.old self.new (cells_added (keeping keeps.now) decl.now.width
            (length self.old.cells) name (length self.old.net.regs) (cells decl.now))) }
    {
        let first = self.cells.len();
        let count = cell_count(decl) as usize;
        for cell in 0..count {
            self.add_cell(alloc, &keeps[first + cell], decl.width, name + cell as u32)?;
        }
        Ok(())
    }
}
