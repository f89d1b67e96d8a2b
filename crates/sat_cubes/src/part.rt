ghost use Rattle.std.specs.Prelude.{◌<◌, IfOk};
ghost use Rattle.sat_cubes.specs.Joined.{CanSplit};
ghost use Rattle.sat_cubes.specs.Parts.{IsPart};

use crate::cube::cube_of;
use crate::cube_set::CubeSet;
use crate::restricting::restrict;
use crate::values::merged;
use cnf_form::Formula;
use fv_text::{List, Memory};
use lrat_check::Step;
use rvf_jobs::Job;
use sat_search::{Found, solve};
use std::alloc::Global;

/// Steps that refute what a cube leaves of a formula.
#[derive(Drop)]
pub(crate) struct Refutation {
    pub steps: List<Step>,
    /// The id in the formula of each clause that is left.
    pub ids: List<u64>,
    /// The number in the formula of each variable that is left.
    pub numbers: List<u64>,
}

/// What comes of one cube.
#[derive(Drop)]
pub(crate) enum Part {
    /// These values make the formula true, that of variable 1 first.
    Model(List<bool>),
    Refuted(Refutation),
    /// The share of the budget is used up.
    Spent,
}

/// The cubes of a formula, each of which is one job.
#[derive(Drop)]
pub(crate) struct Cubes<'a> {
    pub formula: &'a Formula,
    /// The split variables.
    pub split: &'a [u64],
    /// How many clauses each cube's search may learn, from 1 on.
    pub share: u64,
}

impl Job for Cubes<'_> {
    type Answer = Part;

    ghost is_answer = { λ x index part. IsPart x.formula.now x.split.now x.share index part };

    ghost can_work = { λ x. CanSplit x.formula.now x.split.now × (0 < x.share) };

    fn work(&self, alloc: Global, index: u32) -> Result<Part, Memory> {
        part_of(alloc, self.formula, self.split, self.share, index as usize)
    }
}

/// What comes of the cube with the number.
fn part_of(
    alloc: Global,
    formula: &Formula,
    split: &[u64],
    share: u64,
    index: usize,
) -> Result<Part, Memory>
    requires can { CanSplit formula.now split.now }
    requires share { 0 < share }
    ensures { IfOk result (IsPart formula.now split.now share index) }
{
    let _clauses = formula.len();
    let cube = cube_of(alloc, split, split.len(), index)?;
    let (left, ids, numbers) = restrict(alloc, formula, cube.as_slice())?;
    match solve(alloc, &left, share)? {
        Found::Model(values) => {
            let set = CubeSet::new(alloc, cube.as_slice())?;
            let all = merged(alloc, formula.vars(), &set, values.as_slice())?;
            Ok(Part::Model(all))
        }
        Found::Refuted(steps) => Ok(Part::Refuted(Refutation {
            steps,
            ids,
            numbers,
        })),
        Found::Spent(_) => Ok(Part::Spent),
    }
}
