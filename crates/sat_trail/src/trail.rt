ghost use Rattle.std.specs.Prelude.{
  ◌≡◌,
  ◌≤◌,
  ◌||◌,
  false,
  List,
  [],
  ◌∷◌,
  length,
  OnOk,
  MatchOption,
};
ghost use Rattle.std.specs.Prelude.{MatchBool, ℕ};
ghost use Rattle.std.specs.List.{list_any};
ghost use Rattle.std.specs.Option.{option_copied};
ghost use Rattle.lrat_check.specs.Sets.{has, is_false, first_open, other_open, reading, IsLit, AreLits};
ghost use Rattle.lrat_check.specs.Codes.{lit_of, flip};
ghost use Rattle.sat_trail.specs.Trail.{Entries, lits, oldest, below, decided, true_codes, has_code};
ghost use Rattle.sat_trail.specs.Trail.{Outlasts, IsNext};

use crate::place_table::Places;
use fv_text::Memory;
use lrat_check::{Reading, flip};
use std::alloc::Global;
use std::marker::Model;

/// A literal that was made true, and the place of the clause that forced it; a decision has none.
#[derive(Debug, Clone, Copy)]
pub struct Entry {
    pub lit: i64,
    pub reason: Option<u32>,
}

/// What was made true so far. Contracts see the newest entry first.
#[derive(Drop)]
pub struct Trail {
    entries: Vec<Entry>,
    /// One above the place of each true literal among the entries.
    places: Places,
}

impl Model for Trail {
    ghost use Rattle.std.specs.Prelude.{List, reverse};
    ghost use Rattle.sat_trail.specs.Trail.{Entries, ArePlaces};

    ghost Value = { Entries };

    ghost view = { λ t. reverse t.entries.items };

    ghost invariant = { λ t. ArePlaces (reverse t.entries.items) t.places };
}

impl Trail {
    pub fn new(alloc: Global) -> Trail
        ensures { result ≡ [] }
    {
        Trail {
            entries: Vec::new(alloc),
            places: Places::new(alloc),
        }
    }

    pub fn push(&mut self, entry: Entry) -> Result<(), Memory>
        requires lit { IsLit entry.lit }
        requires fresh { has (lits self.old) entry.lit ≡ false }
        ensures { OnOk result (self.new ≡ entry ∷ self.old) }
    {
        self.entries.push(entry)?;
        match self.places.put(&entry.lit, self.entries.len()) {
            Ok(_) => Ok(()),
            Err(_) => {
                self.entries.pop();
                Err(Memory)
            }
        }
    }

    pub fn pop(&mut self) -> Option<Entry>
        ensures { MatchOption result ((self.old ≡ []) × (self.new ≡ [])) (λ e. self.old ≡ e ∷ self.new) }
    {
        let entry = self.entries.pop()?;
        self.places.clear(&entry.lit);
        Some(entry)
    }

    /// The newest entry.
    pub fn newest(&self) -> Option<Entry>
        ensures { MatchOption result (self.now ≡ []) (λ e. (older : Entries) × (self.now ≡ e ∷ older)) }
    {
        let len = self.entries.len();
        if len == 0 {
            return None;
        }
        Some(self.entries[len - 1])
    }

    /// Whether an entry is a decision. The newest ones are looked at first.
    pub fn has_decision(&self) -> bool
        ensures { result ≡ decided self.now }
    {
        let mut place = self.entries.len();
        while place > 0 {
            place -= 1;
            if self.entries[place].reason.is_none() {
                return true;
            }
        }
        false
    }

    /// Takes off the newest decision and what is newer.
    pub fn drop_level(&mut self)
        ensures { self.new ≡ below self.old }
    {
        while let Some(entry) = self.pop() {
            if entry.reason.is_none() {
                return;
            }
        }
    }

    /// How many entries are older than the newest decision.
    pub fn level_start(&self) -> usize
        ensures { result ≡ length (below self.now) }
    {
        let mut place = self.entries.len();
        while place > 0 {
            place -= 1;
            if self.entries[place].reason.is_none() {
                return place;
            }
        }
        0
    }

    /// How the clause reads.
    pub fn read(&self, clause: &[i64]) -> Reading
        requires { AreLits clause.now }
        ensures { result ≡ reading (lits self.now) clause.now }
    {
        self.read_at(self.entries.len(), clause)
    }

    /// How the clause reads under what is older than the newest decision, which are so many entries.
    pub fn read_from(&self, start: usize, clause: &[i64]) -> Reading
        requires lits { AreLits clause.now }
        requires start { start ≡ length (below self.now) }
        ensures { result ≡ reading (lits (below self.now)) clause.now }
    {
        self.read_at(start, clause)
    }

    /// How the clause reads under so many of the oldest entries.
    fn read_at(&self, end: usize, clause: &[i64]) -> Reading
        requires { AreLits clause.now }
        ensures { result ≡ reading (lits (oldest end self.now)) clause.now }
    {
        if self.any_true(end, clause) {
            return Reading::True;
        }
        match self.first_open(end, clause) {
            None => Reading::False,
            Some(lit) => {
                if self.other_open(end, lit, clause) {
                    Reading::Open
                } else {
                    Reading::Unit(*lit)
                }
            }
        }
    }

    fn any_true(&self, end: usize, clause: &[i64]) -> bool
        requires { AreLits clause.now }
        ensures { result ≡ list_any (has (lits (oldest end self.now))) clause.now }
    {
        for lit in clause {
            if self.has_at(end, lit) {
                return true;
            }
        }
        false
    }

    fn first_open<'a>(&self, end: usize, clause: &'a [i64]) -> Option<&'a i64>
        requires { AreLits clause.now }
        ensures { option_copied result ≡ first_open (lits (oldest end self.now)) clause.now }
    {
        for lit in clause {
            if !self.is_false_at(end, lit) {
                return Some(lit);
            }
        }
        None
    }

    fn other_open(&self, end: usize, first: &i64, clause: &[i64]) -> bool
        requires { AreLits clause.now }
        ensures { result ≡ other_open (lits (oldest end self.now)) first.now clause.now }
    {
        for lit in clause {
            if lit != first && !self.is_false_at(end, lit) {
                return true;
            }
        }
        false
    }

    /// Whether the literal is among so many of the oldest entries.
    fn has_at(&self, end: usize, lit: &i64) -> bool
        requires { IsLit lit.now }
        ensures { result ≡ has (lits (oldest end self.now)) lit.now }
    {
        let place = self.places.get(lit);
        if place == 0 {
            return false;
        }
        place as usize <= end
    }

    /// Whether the literal is false by so many of the oldest entries.
    pub fn is_false_at(&self, end: usize, lit: &i64) -> bool
        requires { IsLit lit.now }
        ensures { result ≡ is_false (lits (oldest end self.now)) lit.now }
    {
        self.has_at(end, &-*lit)
    }

    /// How many literals are true.
    pub fn len(&self) -> usize
        ensures { result ≡ length self.now }
    {
        self.entries.len()
    }

    /// The literal at the place, that of the oldest entry being 0. None beyond the end.
    pub fn lit_at(&self, place: usize) -> Option<i64>
        ensures { MatchOption result (length self.now ≤ place) (λ lit. IsNext self.now place lit) }
    {
        if place < self.entries.len() {
            Some(self.entries[place].lit)
        } else {
            None
        }
    }

    /// Whether the first literal is open, or became false no earlier than the second.
    pub fn outlasts(&self, first: i64, second: i64) -> bool
        requires first { IsLit first }
        requires second { IsLit second }
        ensures { MatchBool result (Outlasts self.now first second) (Outlasts self.now second first) }
    {
        let one = self.places.get(&-first);
        let other = self.places.get(&-second);
        one == 0 || (other != 0 && other <= one)
    }

    /// How many of the oldest entries leave the literal open: all of them, and more, where it isn't false.
    pub fn open_until(&self, lit: i64) -> usize
        requires { IsLit lit }
        ensures { (end : ℕ) → end ≤ result → is_false (lits (oldest end self.now)) lit ≡ false }
    {
        match self.places.get(&-lit) {
            0 => self.entries.len(),
            place => place as usize - 1,
        }
    }

    /// Whether the literal with the code is true.
    pub fn is_true(&self, code: u64) -> bool
        requires { IsLit (lit_of code) }
        ensures { result ≡ has_code (true_codes self.now) code }
    {
        self.places.at(code) != 0
    }

    /// Whether the literal with the code is false.
    pub fn is_false(&self, code: u64) -> bool
        requires { IsLit (lit_of code) }
        ensures { result ≡ has_code (true_codes self.now) (flip code) }
    {
        self.places.at(flip(code)) != 0
    }

    pub fn has(&self, lit: &i64) -> bool
        requires { IsLit lit.now }
        ensures { result ≡ has (lits self.now) lit.now }
    {
        self.has_at(self.entries.len(), lit)
    }

    /// The place of the clause that forced the true literal. No clause says so: whoever asks looks at the clause anew.
    pub fn reason(&self, lit: &i64) -> Option<usize>
        requires { IsLit lit.now }
    {
        let place = self.places.get(lit);
        if place == 0 {
            return None;
        }
        let reason = self.entries.get(place as usize - 1)?.reason?;
        Some(reason as usize)
    }

    /// Whether the literal is true or false.
    pub fn is_assigned(&self, lit: i64) -> bool
        requires { IsLit lit }
        ensures { result ≡ (has (lits self.now) lit || is_false (lits self.now) lit) }
    {
        self.has(&lit) || self.has(&-lit)
    }
}
