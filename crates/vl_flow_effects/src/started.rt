ghost use Rattle.std.specs.Prelude.{All, IfOk, true};
ghost use Rattle.vl_flow_cells.specs.Numbering.{IsNumberingOf};
ghost use Rattle.vl_mean.specs.FlatLaw.{IsAssigned, is_variable};
ghost use Rattle.vl_flow_effects.specs.Masks.{AreStarted};

use crate::bits::changes_of;
use crate::masks::{masks_of, push};
use fv_text::{List, Memory};
use std::alloc::Global;
use vl_flow_cells::Numbering;
use vl_flow_order::union_of;
use vl_mean::Start;
use vl_size::Decls;

/// The bits with a value at first: a mask for each cell, by its number. Time is about linear in the targets and in the
/// names' words.
pub fn started_masks(
    alloc: Global,
    starts: &[Start],
    decls: &Decls,
    numbering: &Numbering,
) -> Result<List<u128>, Memory>
    requires numbering { IsNumberingOf decls.now numbering.now }
    requires started { All (λ x. IsAssigned decls.now is_variable true x.target) starts.now }
    ensures { IfOk result (AreStarted decls.now starts.now) }
{
    let mut sets = Vec::new(alloc);
    for start in starts {
        let set = changes_of(alloc, &start.target, decls, numbering)?;
        push(&mut sets, set)?;
    }
    let all = union_of(alloc, sets.as_slice())?;
    Ok(masks_of(alloc, &all, decls)?)
}
