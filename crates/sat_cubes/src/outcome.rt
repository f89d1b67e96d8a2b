ghost use Rattle.std.specs.Prelude.{IfOk};
ghost use Rattle.sat_cubes.specs.Outcomes.{ComesTo};

use crate::part::{Part, Refutation};
use fv_text::{List, Memory};
use std::alloc::Global;

/// What comes of all cubes.
#[derive(Drop)]
pub(crate) enum Outcome {
    /// The values that the lowest cube with a model has.
    Model(List<bool>),
    /// Each cube's steps, in their order.
    Refuted(Vec<Refutation>),
    /// No cube has a model, and one has used up its share.
    Spent,
}

pub(crate) fn outcome_of(alloc: Global, parts: Vec<Part>) -> Result<Outcome, Memory>
    ensures { IfOk result (ComesTo parts.items) }
{
    let mut refutations = Vec::new(alloc);
    let mut is_spent = false;
    for part in parts {
        match part {
            Part::Model(values) => return Ok(Outcome::Model(values)),
            Part::Refuted(refutation) => refutations.push(refutation)?,
            Part::Spent => is_spent = true,
        }
    }
    if is_spent {
        return Ok(Outcome::Spent);
    }
    Ok(Outcome::Refuted(refutations))
}
