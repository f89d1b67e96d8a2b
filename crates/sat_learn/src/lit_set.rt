ghost use Rattle.std.specs.Prelude.{◌≡◌, ◌≤◌, ◌<◌, ◌+◌, ◌-◌, [], ℤ, not, ◌&&◌, ◌||◌, if◌then◌else◌, length};
ghost use Rattle.std.specs.Prelude.{OnOk, MatchOption};
ghost use Rattle.std.specs.Ordering.{int_eq};
ghost use Rattle.lrat_check.specs.Sets.{has, IsLit, AreLits};
ghost use Rattle.sat_trail.specs.Trail.{place_of};
ghost use Rattle.sat_propagate.specs.Watches.{lit_at};

use fv_text::Memory;
use sat_trail::Places;
use std::alloc::Global;
use std::marker::Model;

/// Literals, each once, in some order. To look for one, to add or to remove it takes a few steps.
#[derive(Drop)]
pub(crate) struct LitSet {
    lits: Vec<i64>,
    /// One above the place of each.
    places: Places,
}

impl Model for LitSet {
    ghost use Rattle.std.specs.Prelude.{List, ℤ};
    ghost use Rattle.sat_learn.specs.Placed.{ArePlaced};

    ghost Value = { List ℤ };

    ghost view = { λ s. s.lits.items };

    ghost invariant = { λ s. ArePlaced s.lits.items s.places };
}

impl LitSet {
    pub(crate) fn new(alloc: Global) -> LitSet
        ensures { result ≡ [] }
    {
        LitSet {
            lits: Vec::new(alloc),
            places: Places::new(alloc),
        }
    }

    pub(crate) fn as_slice(&self) -> &[i64]
        ensures same { result.now ≡ self.now }
        ensures lits { AreLits result.now }
    {
        self.lits.as_slice()
    }

    pub(crate) fn has(&self, lit: &i64) -> bool
        requires { IsLit lit.now }
        ensures { result ≡ has self.now lit.now }
    {
        self.places.get(lit) != 0
    }

    /// Whether the literal wasn't there.
    pub(crate) fn insert(&mut self, lit: &i64) -> Result<bool, Memory>
        requires { IsLit lit.now }
        ensures { OnOk result ((x : ℤ) → has self.new x ≡ (has self.old x || int_eq x lit.now)) }
    {
        if self.has(lit) {
            return Ok(false);
        }
        self.lits.push(*lit)?;
        match self.places.put(lit, self.lits.len()) {
            Ok(_) => Ok(true),
            Err(_) => {
                self.lits.pop();
                Err(Memory)
            }
        }
    }

    /// The last literal takes the place of the one that is removed.
    pub(crate) fn remove(&mut self, lit: &i64)
        requires { IsLit lit.now }
        ensures { (x : ℤ) → has self.new x ≡ (not (int_eq lit.now x) && has self.old x) }
    {
        let place = self.places.get(lit);
        if place == 0 {
            return;
        }
        self.lits.swap_remove(place as usize - 1);
        settle(&self.lits, &mut self.places, place);
        self.places.clear(lit);
    }

    fn pop(&mut self) -> Option<i64>
        ensures { MatchOption result ((self.old ≡ []) × (self.new ≡ [])) (λ _. length self.old ≡ length self.new + 1) }
    {
        let lit = self.lits.pop()?;
        self.places.clear(&lit);
        Some(lit)
    }

    pub(crate) fn clear(&mut self)
        ensures { self.new ≡ [] }
    {
        'emptying: while let Some(_lit) = self.pop() {}
    }
}

/// The literal that stands at the place, if one does, is told so.
fn settle(lits: &[i64], places: &mut Places, place: u32)
    requires lits { AreLits lits.now }
    requires some { 0 < place }
    requires placed { place ≤ length lits.now → 0 < place_of places.old (lit_at lits.now (place - 1)) }
    ensures moved { place ≤ length lits.now → (l : ℤ) → place_of places.new l
        ≡ (if int_eq (lit_at lits.now (place - 1)) l then place else place_of places.old l) }
    ensures same { length lits.now < place → (l : ℤ) → place_of places.new l ≡ place_of places.old l }
{
    if place as usize <= lits.len() {
        let moved = lits[place as usize - 1];
        places.change(&moved, place);
    }
}
