ghost use Rattle.std.specs.Prelude.{IfOk};
ghost use Rattle.vl_flow.specs.Analyses.{IsAnalysisOf};

use crate::drivers::{DriverSets, sets_of};
use fv_bit_sets::Bits;
use fv_text::{List, Memory};
use std::alloc::Global;
use vl_flow_cells::Numbering;
use vl_flow_check::{Layout, Names, bits_of_names};
use vl_flow_order::groups_of;
use vl_mean::Flat;

/// A design's names and drivers as sets of bits of numbered cells.
#[derive(Drop)]
pub(crate) struct Analysis {
    pub(crate) numbering: Numbering,
    pub(crate) layout: Layout,
    /// Of each driver, what a combinational block may change and doesn't surely assign.
    pub(crate) latched: List<Bits>,
}

/// The analysis of a design. Time is about linear in its names' words and its drivers.
pub(crate) fn analyzed(alloc: Global, flat: &Flat) -> Result<Analysis, Memory>
    ensures { IfOk result (IsAnalysisOf flat.now.decls flat.now.drivers) }
{
    let _count = flat.decls.len();
    let numbering = Numbering::of(alloc, &flat.decls)?;
    let sets = sets_of(alloc, flat.drivers.as_slice(), &flat.decls, &numbering)?;
    let groups = groups_of(alloc, &flat.decls)?;
    let all = bits_of_names(alloc, &flat.decls, &groups, Names::All)?;
    let DriverSets {
        footprints,
        latched,
        assigned,
    } = sets;
    Ok(Analysis {
        numbering,
        layout: Layout {
            groups,
            all,
            footprints,
            assigned,
        },
        latched,
    })
}
