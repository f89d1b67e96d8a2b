ghost use Rattle.std.specs.Prelude.{◌≡◌, IfOk};
ghost use Rattle.lrat_check.specs.Sets.{has, is_false, IsLit, AreLits};
ghost use Rattle.sat_cubes.specs.Cubes.{is_satisfied};

use fv_text::Memory;
use sat_trail::Places;
use std::alloc::Global;
use std::marker::Model;

/// The literals of a cube. To look for one takes a few steps.
#[derive(Drop)]
pub(crate) struct CubeSet {
    lits: Vec<i64>,
    /// 1 for each of them.
    places: Places,
}

impl Model for CubeSet {
    ghost use Rattle.std.specs.Prelude.{List, ℤ};
    ghost use Rattle.sat_cubes.specs.Parts.{AreFound};

    ghost Value = { List ℤ };

    ghost view = { λ s. s.lits.items };

    ghost invariant = { λ s. AreFound s.lits.items s.places };
}

impl CubeSet {
    pub(crate) fn new(alloc: Global, cube: &[i64]) -> Result<CubeSet, Memory>
        requires { AreLits cube.now }
        ensures { IfOk result (λ set. set ≡ cube.now) }
    {
        let mut places = Places::new(alloc);
        for lit in cube {
            places.put(lit, 1)?;
        }
        Ok(CubeSet {
            lits: Vec::from_slice(alloc, cube)?,
            places,
        })
    }

    /// Whether the cube makes the literal true.
    pub(crate) fn has(&self, lit: &i64) -> bool
        requires { IsLit lit.now }
        ensures { result ≡ has self.now lit.now }
    {
        self.places.get(lit) != 0
    }

    /// Whether the cube makes the literal false.
    pub(crate) fn is_false(&self, lit: &i64) -> bool
        requires { IsLit lit.now }
        ensures { result ≡ is_false self.now lit.now }
    {
        self.has(&-*lit)
    }

    /// Whether the cube makes the clause true.
    pub(crate) fn satisfies(&self, clause: &[i64]) -> bool
        requires { AreLits clause.now }
        ensures { result ≡ is_satisfied self.now clause.now }
    {
        for lit in clause {
            if self.has(lit) {
                return true;
            }
        }
        false
    }
}
