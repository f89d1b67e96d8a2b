ghost use Rattle.std.specs.Prelude.{
  ◌≡◌,
  ◌≤◌,
  ◌<◌,
  ◌+◌,
  ◌++◌,
  ℕ,
  List,
  None,
  Some,
  length,
  vec_len,
  vec_capacity,
  OnOk,
  OnErr,
  MatchOption,
};
ghost use Rattle.std.specs.List.{swap};
ghost use Rattle.lrat_check.specs.Codes.{codes_of};
ghost use Rattle.lrat_check.specs.Sets.{AreLits};

use crate::code::code_of;
use crate::ids::Ids;
use crate::pack::{pack_codes, packed_starts};
use crate::room::make_room;
use cnf_form::end_of;
use fv_text::Memory;
use std::alloc::Global;
use std::marker::Model;

/// Clauses by id, all in one list of codes of literals. The room of those that are held no longer is given back once it
/// is the larger part.
#[derive(Drop)]
pub struct Store {
    alloc: Global,
    codes: Vec<u64>,
    ids: Ids,
    /// Where the clause of each id begins among the codes. It ends where the next one begins.
    starts: Vec<u32>,
    /// Whether each id is still held.
    held: Vec<bool>,
    /// The id that was added last.
    last: Option<u64>,
    /// How many codes and starts belong to clauses that are held no longer.
    given_up: usize,
}

/// Fewer entries than that aren't worth giving back.
const FEW: usize = 1024;

impl Model for Store {
    ghost use Rattle.std.specs.Prelude.{length};
    ghost use Rattle.lrat_check.specs.Store.{Clauses, Lies, spans, above};

    ghost Value = { Clauses };

    ghost view = { λ s. record {
      codes = s.codes.items;
      spans = spans s.ids s.starts.items s.held.items (length s.codes.items);
      last = s.last;
    } };

    ghost invariant = { λ s. Lies s.ids s.starts.items s.held.items (length s.codes.items) (above s.last) };
}

impl Store {
    ghost use Rattle.lrat_check.specs.Store.{coded, next, with_code, Removes};

    pub fn new(alloc: Global) -> Store
        ensures held { (id : ℕ) → coded result id ≡ None }
        ensures next { next result ≡ 0 }
    {
        Store {
            alloc,
            codes: Vec::new(alloc),
            ids: Ids::new(alloc),
            starts: Vec::new(alloc),
            held: Vec::new(alloc),
            last: None,
            given_up: 0,
        }
    }

    /// Adds a clause. After want of memory all is as before.
    pub fn add(&mut self, id: u64, lits: &[i64]) -> Result<(), Memory>
        requires above { next self.old ≤ id }
        requires lits { AreLits lits.now }
        ensures ok { OnOk result (coded self.new ≡ with_code (coded self.old) id (codes_of lits.now)) }
        ensures next { OnOk result (next self.new ≡ id + 1) }
        ensures err { OnErr result (self.new ≡ self.old) }
    {
        self.put(id, lits)?;
        if self.given_up >= FEW && self.given_up > (self.codes.len() + self.starts.len()) / 2 {
            self.pack();
        }
        Ok(())
    }

    fn put(&mut self, id: u64, lits: &[i64]) -> Result<(), Memory>
        requires above { next self.old ≤ id }
        requires lits { AreLits lits.now }
        ensures ok { OnOk result (coded self.new ≡ with_code (coded self.old) id (codes_of lits.now)) }
        ensures next { OnOk result (next self.new ≡ id + 1) }
        ensures err { OnErr result (self.new ≡ self.old) }
    {
        let Ok(start) = u32::try_from(self.codes.len()) else {
            return Err(Memory);
        };
        make_room(&mut self.codes, lits.len())?;
        make_room(&mut self.starts, 1)?;
        make_room(&mut self.held, 1)?;
        self.ids.add(id)?;
        push_codes(&mut self.codes, lits);
        self.starts.push_reserved(start);
        self.held.push_reserved(true);
        self.last = Some(id);
        Ok(())
    }

    /// Leaves out the clauses that aren't held. For want of memory they stay.
    #[inline(never)]
    fn pack(&mut self)
        ensures coded { coded self.new ≡ coded self.old }
        ensures next { next self.new ≡ next self.old }
    {
        let Ok(ids) = self.ids.kept(self.alloc, &self.held) else {
            return;
        };
        let Ok(starts) = packed_starts(self.alloc, &self.starts, &self.held, self.codes.len())
        else {
            return;
        };
        let Ok(held) = Vec::from_elem(self.alloc, true, starts.len()) else {
            return;
        };
        pack_codes(&mut self.codes, &self.starts, &self.held);
        self.codes.shrink_to(self.codes.len().saturating_mul(2));
        self.ids = ids;
        self.starts = starts;
        self.held = held;
        self.given_up = 0;
    }

    /// The codes of the clause's literals. None exactly where the id isn't held.
    pub fn lits(&self, id: u64) -> Option<&[u64]>
        ensures { MatchOption result (coded self.now id ≡ None) (λ codes. coded self.now id ≡ Some codes.now) }
    {
        let Some(place) = self.ids.find(id) else {
            return None;
        };
        if !self.held[place] {
            return None;
        }
        let start = self.starts[place] as usize;
        let end = end_of(&self.starts, place, self.codes.len());
        Some(&self.codes[start..end])
    }

    /// Exchanges two places of the clause, and changes no other clause.
    pub fn swap(&mut self, id: u64, a: u32, b: u32)
        requires { (clause : List ℕ) × (coded self.old id ≡ Some clause) × (a < length clause)
            × (b < length clause) }
        ensures swapped { (clause : List ℕ) → coded self.old id ≡ Some clause
            → coded self.new ≡ with_code (coded self.old) id (swap clause a b) }
        ensures next { next self.new ≡ next self.old }
    {
        self.exchange(id, a as usize, b as usize);
    }

    /// Exchanges two places of the clause, and changes no other clause.
    pub fn exchange(&mut self, id: u64, a: usize, b: usize)
        requires { (clause : List ℕ) × (coded self.old id ≡ Some clause) × (a < length clause)
            × (b < length clause) }
        ensures swapped { (clause : List ℕ) → coded self.old id ≡ Some clause
            → coded self.new ≡ with_code (coded self.old) id (swap clause a b) }
        ensures next { next self.new ≡ next self.old }
    {
        if let Some(place) = self.ids.find(id) {
            let start = self.starts[place] as usize;
            self.codes.swap(start + a, start + b);
        }
    }

    /// Whether the id was held; it is held no longer.
    pub fn remove(&mut self, id: u64) -> bool
        ensures removed { Removes (coded self.old) (coded self.new) id result }
        ensures next { next self.new ≡ next self.old }
    {
        let Some(place) = self.ids.find(id) else {
            return false;
        };
        if !self.held[place] {
            return false;
        }
        self.held[place] = false;
        let start = self.starts[place] as usize;
        let many = end_of(&self.starts, place, self.codes.len()) - start;
        self.given_up = self.given_up.saturating_add(many).saturating_add(1);
        true
    }
}

/// Pushes the codes of the literals, for which there is room.
fn push_codes(codes: &mut Vec<u64>, lits: &[i64])
    requires lits { AreLits lits.now }
    requires room { vec_len codes.old + length lits.now ≤ vec_capacity codes.old }
    ensures { codes.new.items ≡ codes.old.items ++ codes_of lits.now }
{
    for lit in lits {
        codes.push_reserved(code_of(*lit));
    }
}
