ghost use Rattle.std.specs.Prelude.{◌≡◌, ◌≤◌, ◌^◌, All, IfOk, IsTrue, length};
ghost use Rattle.vl_mean.specs.Cells.{cells};
ghost use Rattle.vl_mean.specs.FlatLaw.{IsKept, all_names_count};
ghost use Rattle.vl_size.specs.Size.{is_bound};
ghost use Rattle.vl_size.specs.Table.{span};
ghost use Rattle.vl_flow_cells.specs.Numbering.{IsNumberingOf};

use fv_text::{List, Memory};
use std::alloc::Global;
use vl_mean::Env;
use vl_size::{Decl, Decls};

/// The numbers of the cells of all declared names.
#[derive(Drop)]
pub struct Numbering {
    /// The number of the first cell of each name.
    pub(crate) firsts: List<u64>,
    /// What constants are evaluated in.
    pub(crate) bare: Env,
}

/// How many words lie from one bound to the other.
fn words_between(left: i64, right: i64) -> u64
    requires left { IsTrue (is_bound left) }
    requires right { IsTrue (is_bound right) }
    ensures value { result ≡ span left right }
    ensures few { result ≤ 2 ^ 33 }
{
    (left - right).unsigned_abs() + 1
}

/// How many cells a name has: a vector is one.
pub fn cell_count(decl: &Decl) -> u64
    requires { IsKept decl.now }
    ensures value { result ≡ length (cells decl.now) }
    ensures some { 1 ≤ result }
    ensures few { result ≤ 2 ^ 33 }
{
    match decl.words {
        None => 1,
        Some((left, right)) => words_between(left, right),
    }
}

impl Numbering {
    /// Numbers the cells of declarations that a design without hierarchy may have, in time linear in the names.
    pub fn of(alloc: Global, decls: &Decls) -> Result<Numbering, Memory>
        requires kept { All IsKept decls.now }
        requires few { all_names_count decls.now ≤ 200000 }
        ensures { IfOk result (IsNumberingOf decls.now) }
    {
        let mut firsts = List::new(alloc);
        let mut next = 0;
        for index in 0..decls.len() {
            firsts.push(next)?;
            match decls.get(index) {
                None => unreachable!(),
                Some(decl) => next += cell_count(decl),
            }
        }
        Ok(Numbering {
            firsts,
            bare: Env::new(alloc, Decls::new(alloc)),
        })
    }
}
