ghost use Rattle.std.specs.Prelude.{◌≡◌, ◌<◌, ◌≤◌, ◌+◌, ◌-◌, ◌^◌, List, None, Some, length, slice_get, true};
ghost use Rattle.fv_text.specs.declared.pos.Pos.{Pos};
ghost use Rattle.fv_bits.specs.Bits as bits;
ghost use Rattle.vl_mean.specs.Cells.{cells};
ghost use Rattle.vl_mean.specs.FlatLaw.{IsKept, flat_scopes};
ghost use Rattle.vl_mean.specs.Targets as targets;
ghost use Rattle.vl_flow_spec.specs.Reads.{selected};
ghost use Rattle.vl_size.specs.declared.decl.Decl.{Decl};
ghost use Rattle.vl_tree.specs.Expr.{bit};
ghost use Rattle.vl_tree.specs.ExprView.{selects, with_select};
ghost use Rattle.vl_flow_cells.specs.Numbered.{HasSize, Shows, some_takes, takes};
ghost use Rattle.vl_flow_cells.specs.Numbering.{BeginsAt, IsNumberingOf};

use crate::cell_run::CellRun;
use crate::constant::constant;
use crate::fixed::are_fixed;
use crate::mask::vector_mask;
use crate::numbering::{Numbering, cell_count};
use crate::place::word_place;
use fv_bits::ones;
use fv_text::Text;
use vl_mean::Env;
use vl_size::{Decl, Decls};
use vl_tree::{Expr, Select};

/// The bits of the mask in one cell.
fn one_cell(cell: u64, mask: u128) -> CellRun
    requires { cell < 2 ^ 64 - 1 }
    ensures first { result.first ≡ cell }
    ensures past { result.past ≡ cell + 1 }
    ensures mask { result.mask ≡ mask }
{
    CellRun {
        first: cell,
        past: cell + 1,
        mask,
    }
}

/// All bits of all cells of a name, whose first cell has the number.
fn whole_name(first: u64, decl: &Decl) -> CellRun
    requires kept { IsKept decl.now }
    requires few { decl.now.width ≤ 128 }
    requires low { first ≤ 2 ^ 32 }
    ensures first { result.first ≡ first }
    ensures past { result.past ≡ first + length (cells decl.now) }
    ensures mask { result.mask ≡ bits.ones decl.now.width }
{
    let count = cell_count(decl);
    CellRun {
        first,
        past: first + count,
        mask: ones(decl.width),
    }
}

/// The bits of a word of a memory that constant selects take. None where there is no such word.
fn word_run(
    first: u64,
    decl: &Decl,
    words: (i64, i64),
    index: &Expr,
    others: &[Select],
    bare: &Env,
) -> Option<CellRun>
    requires kept { IsKept decl.now }
    requires few { decl.now.width ≤ 128 }
    requires low { first ≤ 2 ^ 32 }
    requires words { decl.now.words ≡ Some words }
    ensures { (ds : List Decl) (p : Pos) → BeginsAt ds decl.now first
        → HasSize ds decl.now.name (bit p index.now (selects others.now))
        → targets.are_fixed (flat_scopes ds) (bit p index.now (selects others.now)) ≡ true
        → Shows ds (some_takes result) (selected ds decl.now.name (bit p index.now (selects others.now))) }
{
    match word_place(words, constant(index, bare)) {
        None => None,
        Some(word) => Some(one_cell(first + word, vector_mask(decl, others, bare))),
    }
}

/// The same, where the first select may not be an index: then no word is taken.
fn word_of(
    first: u64,
    decl: &Decl,
    words: (i64, i64),
    select: &Select,
    others: &[Select],
    bare: &Env,
) -> Option<CellRun>
    requires kept { IsKept decl.now }
    requires few { decl.now.width ≤ 128 }
    requires low { first ≤ 2 ^ 32 }
    requires words { decl.now.words ≡ Some words }
    ensures { (ds : List Decl) → BeginsAt ds decl.now first
        → HasSize ds decl.now.name (with_select select.now (selects others.now))
        → targets.are_fixed (flat_scopes ds) (with_select select.now (selects others.now)) ≡ true
        → Shows ds (some_takes result) (selected ds decl.now.name (with_select select.now (selects others.now))) }
{
    match select {
        Select::Bit(_, index) => word_run(first, decl, words, index, others, bare),
        Select::Part(_, _, _) => None,
        Select::Indexed(_, _, _) => None,
    }
}

/// The bits of a vector that constant selects take.
fn vector_run(first: u64, decl: &Decl, all: &[Select], bare: &Env) -> CellRun
    requires kept { IsKept decl.now }
    requires few { decl.now.width ≤ 128 }
    requires low { first ≤ 2 ^ 32 }
    requires vector { decl.now.words ≡ None }
    ensures { (ds : List Decl) → BeginsAt ds decl.now first → HasSize ds decl.now.name (selects all.now)
        → targets.are_fixed (flat_scopes ds) (selects all.now) ≡ true
        → Shows ds (takes result) (selected ds decl.now.name (selects all.now)) }
{
    one_cell(first, vector_mask(decl, all, bare))
}

/// The bits that selects of a name take, whose first cell has the number.
fn taken_of(first: u64, decl: &Decl, all: &[Select], bare: &Env) -> Option<CellRun>
    requires kept { IsKept decl.now }
    requires few { decl.now.width ≤ 128 }
    requires low { first ≤ 2 ^ 32 }
    ensures { (ds : List Decl) → BeginsAt ds decl.now first → HasSize ds decl.now.name (selects all.now)
        → Shows ds (some_takes result) (selected ds decl.now.name (selects all.now)) }
{
    if !are_fixed(all) {
        return Some(whole_name(first, decl));
    }
    match decl.words {
        None => Some(vector_run(first, decl, all, bare)),
        Some(words) => match all {
            [] => None,
            [select, others @ ..] => word_of(first, decl, words, select, others, bare),
        },
    }
}

impl Numbering {
    /// The number of the first cell of the declaration at a place.
    fn first_of(&self, place: u32) -> u64
        requires { place < length self.now.firsts }
        ensures { slice_get self.now.firsts place ≡ Some result }
    {
        self.firsts.as_slice()[place as usize]
    }

    /// The bits that selects of a name take, by the numbers of their cells: where an index varies the whole name. The
    /// selects have a size.
    pub fn taken(&self, decls: &Decls, text: &Text, all: &[Select]) -> Option<CellRun>
        requires { IsNumberingOf decls.now self.now }
        ensures { HasSize decls.now text.now (selects all.now)
            → Shows decls.now (some_takes result) (selected decls.now text.now (selects all.now)) }
    {
        let name = decls.find(text)?;
        let decl = decls.get(name as usize)?;
        let first = self.first_of(name);
        taken_of(first, decl, all, &self.bare)
    }
}
