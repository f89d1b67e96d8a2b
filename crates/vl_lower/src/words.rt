//! Memories, and the cells of their words.

ghost use Rattle.std.specs.Prelude.{◌≡◌, ◌≤◌, ◌<◌, ◌+◌, ◌-◌, ◌^◌, IfOk, OnOk, length};
ghost use Rattle.vl_size.specs.Table.{IsShaped};
ghost use Rattle.vl_mean.specs.Cells.{cells};
ghost use Rattle.vl_mean.specs.FlatLaw.{IsKept};
ghost use Rattle.wn_net.specs.Changes.{mem_width};
ghost use Rattle.vl_lower_cell_laws.specs.Listing.{word_starts};
ghost use Rattle.vl_lower.specs.Added.{Adds, memory_added, word_added, words_added};
ghost use Rattle.vl_lower.specs.Design.{keeping};

use crate::keeping::whole_start;
use crate::sources::Sources;
use fv_text::{List, Memory, Word};
use std::alloc::Global;
use vl_flow_cells::cell_count;
use vl_lower_cell_laws::Keep;
use vl_size::Decl;
use wn_net::Init;

/// What the words of a memory begin with: the first cell has the number.
fn starts_of(alloc: Global, decl: &Decl, keeps: &[Keep], first: usize) -> Result<List<Init>, Memory>
    requires kept { IsKept decl.now }
    requires shaped { IsShaped decl.now }
    requires there { first + length (cells decl.now) ≤ length keeps.now }
    ensures { IfOk result
        (λ xs. xs ≡ word_starts (keeping keeps.now) decl.now.width first (cells decl.now)) }
{
    let mut starts = List::new(alloc);
    let count = cell_count(decl) as usize;
    for word in 0..count {
        starts.push(whole_start(&keeps[first + word], decl.width))?;
    }
    Ok(starts)
}

impl Sources {
    /// The cell of a word.
    fn add_word(&mut self, mem: u32, word: u32) -> Result<(), Memory>
        requires { mem < length self.old.net.mems }
        ensures { OnOk result (Adds self.old self.new (word_added (mem_width self.old.net mem) mem word)) }
    {
        let Some(number) = Word::new(32, u128::from(word)) else {
            unreachable!()
        };
        let address = self.net.konst(number)?;
        let node = self.net.read(mem, address)?;
        self.cells.push(node)?;
        Ok(())
    }

    /// The cells of a memory's words.
    fn add_words(&mut self, mem: u32, decl: &Decl) -> Result<(), Memory>
        requires kept { IsKept decl.now }
        requires mem { mem < length self.old.net.mems }
        requires width { mem_width self.old.net mem ≡ decl.now.width }
        requires few { length (cells decl.now) ≤ 200000 }
        ensures { OnOk result (Adds self.old self.new (words_added decl.now.width mem 0 (cells decl.now))) }
    {
        let count = cell_count(decl) as usize;
        for word in 0..count {
            self.add_word(mem, word as u32)?;
        }
        Ok(())
    }

    /// A memory, the one with the entry at a place, and its words.
    pub(crate) fn add_memory(
        &mut self,
        alloc: Global,
        decl: &Decl,
        keeps: &[Keep],
        name: u32,
    ) -> Result<(), Memory>
        requires kept { IsKept decl.now }
        requires shaped { IsShaped decl.now }
        requires there { length self.old.cells + length (cells decl.now) ≤ length keeps.now }
        requires few { length self.old.cells + length (cells decl.now) ≤ 200000 }
        requires room { length self.old.net.mems < 2 ^ 32 - 1 }
        ensures { OnOk result (Adds self.old self.new (memory_added (keeping keeps.now) decl.now
            (length self.old.cells) name (length self.old.net.mems))) }
    {
        let first = self.cells.len();
        let starts = starts_of(alloc, decl, keeps, first)?;
        let mem = self.net.mem(decl.width, cell_count(decl) as u32, starts)?;
        self.mems.push(name)?;
        self.memory_cells.push(first as u32)?;
        Ok(self.add_words(mem, decl)?)
    }
}
