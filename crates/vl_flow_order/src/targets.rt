ghost use Rattle.std.specs.Prelude.{◌∷◌, [], IfOk};
ghost use Rattle.fv_bit_sets.specs.Cells.{has};
ghost use Rattle.vl_flow_spec.specs.Assigned as spec;
ghost use Rattle.vl_flow_order.specs.Names.{AreNames};

use crate::names::push;
use crate::union::union_of;
use fv_bit_sets::Bits;
use fv_text::{Memory, Text};
use std::alloc::Global;
use vl_size::Decls;
use vl_tree::{Lval, LvalKind};

/// The name alone.
fn name_of(alloc: Global, text: &Text, decls: &Decls) -> Result<Bits, Memory>
    ensures { IfOk result (λ names. AreNames decls.now (text.now ∷ []) (has names)) }
{
    let _count = decls.len();
    match decls.find(text) {
        None => Ok(Bits::none(alloc)),
        Some(place) => {
            let first = u64::from(place);
            Ok(Bits::of_cells(alloc, first, first + 1, 1)?)
        }
    }
}

/// The names that a target has: bit 0 of the cells with the numbers of their places.
#[cycle(names)]
#[tactic(auto, using(vl_tree::specs::LvalFalls::parts_fall))]
pub fn target_names(alloc: Global, target: &Lval, decls: &Decls) -> Result<Bits, Memory>
    ensures { IfOk result (λ names. AreNames decls.now (spec.target_names target.now) (has names)) }
{
    match &target.kind {
        LvalKind::Name(text, _) => Ok(name_of(alloc, text, decls)?),
        LvalKind::Concat(parts) => {
            let mut sets = Vec::new(alloc);
            for part in parts.as_slice() {
                push(&mut sets, target_names(alloc, part, decls)?)?;
            }
            Ok(union_of(alloc, sets.as_slice())?)
        }
    }
}
