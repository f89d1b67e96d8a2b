ghost use Rattle.std.specs.Prelude.{◌≡◌, ◌<◌, ℕ, ℤ, [], true, false, if◌then◌else◌, length, OnOk, OnErr};
ghost use Rattle.std.specs.Ordering.{int_eq};
ghost use Rattle.lrat_check.specs.Codes.{code_of};
ghost use Rattle.lrat_check.specs.Marks.{is_marked, is_near};
ghost use Rattle.lrat_check.specs.Sets.{IsLit};

use crate::code::code_of;
use fv_text::Memory;
use std::alloc::Global;
use std::collections::HashSet;

/// How many codes the table may have from the beginning.
const FEW: u64 = 1024;

/// How many more it may have for each literal that was marked.
const MORE: u64 = 8;

/// Which literals are marked, by their codes. The table is as long as the literals that were marked so far allow, so
/// that no number that stands in a text makes it longer than the text is; the other codes stand in the set.
#[derive(Drop)]
pub(crate) struct Marks {
    near: Vec<bool>,
    far: HashSet<u64>,
    /// How many codes the table may have.
    room: u64,
}

impl Marks {
    pub(crate) fn new(alloc: Global) -> Marks
        ensures { (code : ℕ) → is_marked result code ≡ false }
    {
        Marks {
            near: Vec::new(alloc),
            far: HashSet::new(alloc),
            room: FEW,
        }
    }

    pub(crate) fn get(&self, code: u64) -> bool
        ensures { result ≡ is_marked self.now code }
    {
        is_in(&self.near, code) || self.far.contains(&code)
    }

    /// Marks the literal. After want of memory the same ones are marked.
    pub(crate) fn put(&mut self, lit: &i64) -> Result<(), Memory>
        requires { IsLit lit.now }
        ensures ok { OnOk result ((l : ℤ) → is_marked self.new (code_of l)
            ≡ (if int_eq lit.now l then true else is_marked self.old (code_of l))) }
        ensures err { OnErr result ((l : ℤ) → is_marked self.new (code_of l) ≡ is_marked self.old (code_of l)) }
    {
        let code = code_of(*lit);
        if code < self.room {
            widen(&mut self.near, code as usize)?;
            self.near[code as usize] = true;
        } else {
            self.far.insert(code)?;
        }
        self.room = self.room.saturating_add(MORE);
        Ok(())
    }

    /// The literal isn't marked any more.
    pub(crate) fn clear(&mut self, lit: &i64)
        requires { IsLit lit.now }
        ensures { (l : ℤ) → is_marked self.new (code_of l)
            ≡ (if int_eq lit.now l then false else is_marked self.old (code_of l)) }
    {
        let code = code_of(*lit);
        if (code as usize) < self.near.len() {
            self.near[code as usize] = false;
        }
        self.far.remove(&code);
    }
}

fn is_in(table: &Vec<bool>, code: u64) -> bool
    ensures { result ≡ is_near table.now.items code }
{
    match table.get(code as usize) {
        Some(mark) => *mark,
        None => false,
    }
}

/// Fills up until there is a mark for the code.
fn widen(table: &mut Vec<bool>, code: usize) -> Result<(), Memory>
    ensures within { OnOk result (code < length table.new.items) }
    ensures same { (k : ℕ) → is_near table.new.items k ≡ is_near table.old.items k }
{
    while table.len() <= code {
        table.push(false)?;
    }
    Ok(())
}
