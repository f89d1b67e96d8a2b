//! A step with what it adds.
ghost use Rattle.std.specs.Prelude.{◌≡◌, ◌∷◌, [], List};
ghost use Rattle.vl_tree.specs.declared.source.Module.{Module};
ghost use Rattle.vl_mean.specs.ConstantFaults.{capped};
ghost use Rattle.vl_mean.specs.Walk.{Step};
ghost use Rattle.vl_elab_spec.specs.Counts.{step_names, step_nodes};
ghost use Rattle.vl_elab_spec.specs.Items.{step_refusals};
ghost use Rattle.vl_elab_spec.specs.Refused as refused;
ghost use Rattle.vl_elab_spec.specs.Refused.{lowest};
ghost use Rattle.vl_elab_spec.specs.Walked.{AreTotals, AreWalked};
ghost use Rattle.vl_elab_places.specs.Judged.{judged_pos};

use fv_text::Pos;
use vl_elab_check_expr::first_of;
use vl_elab_count::Added;
use vl_elab_spec::{ElabFault, Totals};

/// The step that is refused so by itself, with the nodes and names that it adds to those before it. `pos`: where it
/// stands, or, where it makes the design too large, the node or the name that does.
pub(crate) fn weighed(
    fault: Option<ElabFault>,
    added: Added,
    pos: Pos,
    totals: &mut Totals,
) -> Option<ElabFault>
    ensures { (ms : List Module) (x : Step) (t : refused.Totals) → fault ≡ lowest (step_refusals ms x)
        → added.nodes ≡ capped (step_nodes x) → added.names ≡ capped (step_names x) → pos ≡ judged_pos t x
        → AreTotals totals.old t → AreWalked ms t totals.new (x ∷ []) result }
{
    let sum = totals.with(added.nodes, added.names);
    *totals = sum;
    if sum.is_too_large() {
        return first_of(fault, Some(ElabFault::TooLarge(pos)));
    }
    fault
}
