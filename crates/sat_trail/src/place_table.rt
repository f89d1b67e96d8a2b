ghost use Rattle.std.specs.Prelude.{
  ◌≡◌,
  ◌<◌,
  [],
  ℕ,
  ℤ,
  if◌then◌else◌,
  slice_index_or,
  vec_len,
  OnOk,
  OnErr,
};
ghost use Rattle.std.specs.Ordering.{int_eq};
ghost use Rattle.lrat_check.specs.Sets.{IsLit};
ghost use Rattle.sat_trail.specs.Trail.{place_of};

use fv_text::Memory;
use lrat_check::code_of;
use std::alloc::Global;
use std::marker::Model;

/// A number for each literal, by its code; 0 where none was put. It has 32 bits, as so many literals that each have one
/// would take tens of gigabytes.
#[derive(Drop)]
pub struct Places {
    places: Vec<u32>,
}

impl Model for Places {
    ghost use Rattle.std.specs.Prelude.{List, ℕ};

    ghost Value = { List ℕ };

    ghost view = { λ p. p.places.items };
}

impl Places {
    /// None has a number.
    pub fn new(alloc: Global) -> Places
        ensures { result ≡ [] }
    {
        Places {
            places: Vec::new(alloc),
        }
    }

    /// The literal's number.
    pub fn get(&self, lit: &i64) -> u32
        requires { IsLit lit.now }
        ensures { result ≡ place_of self.now lit.now }
    {
        self.at(code_of(*lit))
    }

    /// The number of the literal with the code.
    pub fn at(&self, code: u64) -> u32
        ensures { result ≡ slice_index_or self.now code 0 }
    {
        match self.places.get(code as usize) {
            Some(place) => *place,
            None => 0,
        }
    }

    /// Gives the literal a number. After want of memory each has its own as before; a number of more than 32 bits is
    /// want of memory too.
    pub fn put(&mut self, lit: &i64, place: usize) -> Result<(), Memory>
        requires { IsLit lit.now }
        ensures ok { OnOk result ((l : ℤ) → place_of self.new l
            ≡ (if int_eq lit.now l then place else place_of self.old l)) }
        ensures err { OnErr result ((l : ℤ) → place_of self.new l ≡ place_of self.old l) }
    {
        if place > u32::MAX as usize {
            return Err(Memory);
        }
        let code = code_of(*lit) as usize;
        widen(&mut self.places, code)?;
        self.places[code] = place as u32;
        Ok(())
    }

    /// Gives the literal, which has a number, another one.
    pub fn change(&mut self, lit: &i64, place: u32)
        requires lit { IsLit lit.now }
        requires some { 0 < place_of self.old lit.now }
        ensures { (l : ℤ) → place_of self.new l ≡ (if int_eq lit.now l then place else place_of self.old l) }
    {
        let code = code_of(*lit) as usize;
        if code < self.places.len() {
            self.places[code] = place;
        }
    }

    /// The literal has no number any more.
    pub fn clear(&mut self, lit: &i64)
        requires { IsLit lit.now }
        ensures { (l : ℤ) → place_of self.new l ≡ (if int_eq lit.now l then 0 else place_of self.old l) }
    {
        let code = code_of(*lit) as usize;
        if code < self.places.len() {
            self.places[code] = 0;
        }
    }
}

/// Fills up with 0 until there is one for the code.
fn widen(places: &mut Vec<u32>, code: usize) -> Result<(), Memory>
    ensures within { OnOk result (code < vec_len places.new) }
    ensures same { (k : ℕ) → slice_index_or places.new.items k 0 ≡ slice_index_or places.old.items k 0 }
{
    while places.len() <= code {
        places.push(0)?;
    }
    Ok(())
}
