ghost use Rattle.std.specs.Prelude.{OnOk, true};
ghost use Rattle.vl_flow_cells.specs.Numbering.{IsNumberingOf};
ghost use Rattle.vl_flow_cells.specs.Sized.{TargetIsSized};
ghost use Rattle.vl_mean.specs.FlatLaw.{IsTarget, is_net};
ghost use Rattle.vl_flow_check.specs.Shares.{AddsPlaces, target_places};

use crate::share::{Share, push};
use fv_text::{Memory, Pos};
use std::alloc::Global;
use vl_flow_cells::Numbering;
use vl_flow_effects::changes_of;
use vl_size::Decls;
use vl_tree::{Lval, LvalKind};

/// Puts a share for each name of a net's target behind the others: a target that has a bit twice has it in two of
/// them.
#[cycle(shares)]
#[tactic(auto, using(vl_tree::specs::LvalFalls::parts_fall))]
pub(crate) fn target_shares(
    alloc: Global,
    target: &Lval,
    pos: Pos,
    decls: &Decls,
    numbering: &Numbering,
    into: &mut Vec<Share>,
) -> Result<(), Memory>
    requires { IsNumberingOf decls.now numbering.now }
    ensures { OnOk result (TargetIsSized decls.now target.now → IsTarget decls.now is_net true target.now
        → AddsPlaces decls.now into.old.items into.new.items (target_places decls.now target.now pos)) }
{
    match &target.kind {
        LvalKind::Name(_, _) => {
            let bits = changes_of(alloc, target, decls, numbering)?;
            push(into, Share { bits, pos })?;
            Ok(())
        }
        LvalKind::Concat(parts) => {
            for part in parts.as_slice() {
                target_shares(alloc, part, pos, decls, numbering, into)?;
            }
            Ok(())
        }
    }
}
