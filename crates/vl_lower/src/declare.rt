//! The names of a design, one after the other.

ghost use Rattle.std.specs.Prelude.{◌≡◌, ◌≤◌, ◌+◌, List, IfOk, OnOk, length};
ghost use Rattle.vl_size.specs.Table.{IsShaped};
ghost use Rattle.vl_mean.specs.Cells.{cells};
ghost use Rattle.vl_mean.specs.FlatLaw.{IsKept};
ghost use Rattle.vl_mean.specs.FlatParts.{flat_parts};
ghost use Rattle.vl_mean.specs.Parts.{Part};
ghost use Rattle.vl_lower_cell_laws.specs.Entries.{is_memory};
ghost use Rattle.vl_lower_cell_laws.specs.Listing as spec;
ghost use Rattle.vl_lower.specs.Added.{Adds, IsSmall, name_added};
ghost use Rattle.vl_lower.specs.Design.{AreKeepsOf, Declares, keeping};

use crate::sources::Sources;
use crate::stored::is_stored;
use fv_text::Memory;
use std::alloc::Global;
use vl_flow_cells::cell_count;
use vl_lower_cell_laws::Keep;
use vl_mean::Flat;
use vl_size::{Class, Decl};
use wn_net::InputKind;

/// How many entries a name has, where it is a memory of the net or not.
fn entry_count(decl: &Decl, stored: bool) -> u32
    requires kept { IsKept decl.now }
    requires few { length (cells decl.now) ≤ 200000 }
    ensures { (ps : List Part) → is_memory ps decl.now ≡ stored → result ≡ spec.entry_count ps decl.now }
{
    if decl.class == Class::Clock {
        return 0;
    }
    if stored { 1 } else { cell_count(decl) as u32 }
}

impl Sources {
    /// A name, where it is a memory of the net or not. Its entries stand from a place on.
    fn add_name(
        &mut self,
        alloc: Global,
        decl: &Decl,
        keeps: &[Keep],
        stored: bool,
        name: u32,
    ) -> Result<(), Memory>
        requires kept { IsKept decl.now }
        requires shaped { IsShaped decl.now }
        requires there { length self.old.cells + length (cells decl.now) ≤ length keeps.now }
        requires few { length self.old.cells + length (cells decl.now) ≤ 200000 }
        requires name { name ≤ length self.old.cells }
        requires small { IsSmall self.old }
        ensures adds { OnOk result ((ps : List Part) → is_memory ps decl.now ≡ stored
            → Adds self.old self.new (name_added ps (keeping keeps.now) decl.now decl.now.class
            (length self.old.cells) name (length self.old.net.inputs) (length self.old.net.regs)
            (length self.old.net.mems))) }
    {
        match decl.class {
            Class::Clock | Class::Net => Ok(self.add_zero(decl.width)?),
            Class::Input | Class::EachCycle => Ok(self.add_input(
                alloc,
                decl.width,
                InputKind::EachCycle,
                name,
            )?),
            Class::Reset => Ok(self.add_input(alloc, decl.width, InputKind::Reset, name)?),
            Class::Once => Ok(self.add_input(alloc, decl.width, InputKind::Once, name)?),
            Class::Variable => {
                if stored {
                    Ok(self.add_memory(alloc, decl, keeps, name)?)
                } else {
                    Ok(self.add_cells(alloc, decl, keeps, name)?)
                }
            }
        }
    }
}

/// The inputs, registers and memories that the names of a design come to, and a node for each cell, by what is kept of
/// the cells. In about linear time.
pub fn declare_sources(alloc: Global, flat: &Flat, keeps: &[Keep]) -> Result<Sources, Memory>
    requires { AreKeepsOf (flat_parts flat.now) flat.now.decls keeps.now }
    ensures { IfOk result (Declares (flat_parts flat.now) flat.now.decls keeps.now) }
{
    let mut sources = Sources::new(alloc);
    let mut name = 0;
    for at in 0..flat.decls.len() {
        match flat.decls.get(at) {
            None => unreachable!(),
            Some(decl) => {
                let stored = is_stored(decl, keeps, sources.cells.len());
                sources.add_name(alloc, decl, keeps, stored, name)?;
                name += entry_count(decl, stored);
            }
        }
    }
    let _ = sources.net.nodes();
    Ok(sources)
}
