//! Covers of tables by prime cubes. Which cubes these are is a guess; a cover is compared with its table before it is
//! used.
use crate::cube::{Cube, Rows, Sign, cube_rows};
use fv_text::Memory;
use std::alloc::Global;

/// Cubes whose rows are those in which a table is true, and cubes whose rows are the others.
#[derive(Debug, Drop)]
pub(crate) struct Cover {
    pub on: Vec<Cube>,
    pub off: Vec<Cube>,
}

/// A cube with its rows.
#[derive(Debug, Clone, Copy, PartialEq, Eq)]
struct CubeRows {
    cube: Cube,
    rows: Rows,
}

/// The covers of all tables that were asked for.
#[derive(Debug, Drop)]
pub(crate) struct Covers {
    alloc: Global,
    /// Each cube of four leaves, those that ask least first.
    cubes: Vec<CubeRows>,
    /// For each table 1 more than the place of its cover; 0 where it has none yet.
    places: Vec<usize>,
    covers: Vec<Cover>,
}

const SIGNS: [Sign; 3] = [Sign::Absent, Sign::Plain, Sign::Turned];

/// How many leaves a cube asks something of.
fn asked(cube: &Cube) -> u8 {
    let first = u8::from(cube.first != Sign::Absent);
    let second = u8::from(cube.second != Sign::Absent);
    let third = u8::from(cube.third != Sign::Absent);
    let fourth = u8::from(cube.fourth != Sign::Absent);
    first + second + third + fourth
}

/// Adds the cubes that ask something of so many leaves, with these signs of two of them.
fn add_cubes(cubes: &mut Vec<CubeRows>, first: Sign, second: Sign, size: u8) -> Result<(), Memory> {
    for third in SIGNS {
        for fourth in SIGNS {
            let cube = Cube {
                first,
                second,
                third,
                fourth,
            };
            if asked(&cube) == size {
                let rows = cube_rows(&cube);
                cubes.push(CubeRows { cube, rows })?;
            }
        }
    }
    Ok(())
}

/// Each cube of four leaves, those that ask least first.
fn all_cubes(alloc: Global) -> Result<Vec<CubeRows>, Memory> {
    let mut cubes = Vec::new(alloc);
    for size in 0..5 {
        for first in SIGNS {
            for second in SIGNS {
                add_cubes(&mut cubes, first, second, size)?;
            }
        }
    }
    Ok(cubes)
}

/// Whether each of these rows is among those of one cube.
fn is_within_one(rows: Rows, cubes: &[CubeRows]) -> bool {
    for other in cubes {
        if rows & !other.rows == 0 {
            return true;
        }
    }
    false
}

/// The rows of the cubes in front of a place.
fn rows_before(cubes: &[CubeRows], place: usize) -> Rows {
    let mut rows = 0;
    for (index, other) in cubes.iter().enumerate() {
        if index < place {
            rows |= other.rows;
        }
    }
    rows
}

/// The primes of a table, without those whose rows the others have.
fn primes_of(alloc: Global, cubes: &[CubeRows], table: Rows) -> Result<Vec<Cube>, Memory> {
    let mut primes = Vec::new(alloc);
    for one in cubes {
        if one.rows & !table == 0 && !is_within_one(one.rows, primes.as_slice()) {
            primes.push(*one)?;
        }
    }
    let mut taken = Vec::new(alloc);
    let mut rows = 0;
    let count = primes.len();
    for turn in 0..count {
        let place = count - 1 - turn;
        let prime = primes[place];
        if prime.rows & !rows_before(primes.as_slice(), place) & !rows != 0 {
            taken.push(prime.cube)?;
            rows |= prime.rows;
        }
    }
    Ok(taken)
}

fn count(cubes: &Vec<Cube>) -> u32 {
    u32::try_from(cubes.len()).unwrap_or(u32::MAX)
}

impl Covers {
    pub(crate) fn new(alloc: Global) -> Result<Covers, Memory> {
        Ok(Covers {
            alloc,
            cubes: all_cubes(alloc)?,
            places: vec![in alloc; 0usize; 65536]?,
            covers: Vec::new(alloc),
        })
    }

    /// The place of the cover of a table.
    pub(crate) fn place_of(&mut self, table: Rows) -> Result<usize, Memory> {
        if let Some(known) = self.places.get(table as usize).copied() {
            if known > 0 {
                return Ok(known - 1);
            }
        }
        let on = primes_of(self.alloc, self.cubes.as_slice(), table)?;
        let off = primes_of(self.alloc, self.cubes.as_slice(), !table)?;
        let place = self.covers.len();
        self.covers.push(Cover { on, off })?;
        if let Some(slot) = self.places.get_mut(table as usize) {
            *slot = place + 1;
        }
        Ok(place)
    }

    /// The cover at a place.
    pub(crate) fn cover(&self, place: usize) -> Option<&Cover> {
        self.covers.get(place)
    }

    /// How many clauses a table has.
    pub(crate) fn clauses(&mut self, table: Rows) -> Result<u32, Memory> {
        let place = self.place_of(table)?;
        Ok(match self.covers.get(place) {
            Some(cover) => count(&cover.on).saturating_add(count(&cover.off)),
            None => 0,
        })
    }
}
