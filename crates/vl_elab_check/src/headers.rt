//! The parameters of a module's head.
ghost use Rattle.std.specs.Prelude.{◌≡◌, ◌++◌, ◌∷◌, [], ℕ, List, None, IfOk, OnOk};
ghost use Rattle.vl_tree.specs.declared.source.Module.{Module};
ghost use Rattle.vl_mean.specs.ConstantFaults.{capped};
ghost use Rattle.vl_mean.specs.Declarations.{header_parameters};
ghost use Rattle.vl_mean.specs.Walk.{Place, header, header_steps, parameter_names};
ghost use Rattle.vl_elab_spec.specs.Counts as counts;
ghost use Rattle.vl_elab_spec.specs.Meanings.{meanings_at};
ghost use Rattle.vl_elab_spec.specs.Refused as refused;
ghost use Rattle.vl_elab_scope.specs.Alike.{Alike};
ghost use Rattle.vl_elab_names.specs.Known.{AreNames};
ghost use Rattle.vl_elab_params.specs.Reached.{AreAround, IsReached};
ghost use Rattle.vl_elab_check_scope.specs.Gives.{Gives};
ghost use Rattle.vl_elab_spec.specs.Walked.{AreTotals, AreWalked};

use crate::step::weighed;
use fv_text::Memory;
use std::alloc::Global;
use vl_elab_check_scope::header_fault;
use vl_elab_const::Given;
use vl_elab_count::{Added, expr_nodes, range_nodes};
use vl_elab_decls::Inside;
use vl_elab_names::NameSet;
use vl_elab_params::Reached;
use vl_elab_places::header_place;
use vl_elab_spec::{ElabFault, Totals};
use vl_mean::widths::plus;
use vl_tree::{HeaderParameter, Parameter};

#[tactic(auto, using(vl_elab_count::proofs::CountSums::sums))]
fn parameter_nodes(parameter: &Parameter) -> u64
    ensures { result ≡ capped (counts.parameter_nodes (parameter.now ∷ [])) }
{
    let range = range_nodes(&parameter.shape.range);
    let value = expr_nodes(&parameter.value);
    plus(plus(range, value), 1)
}

fn walk_header(
    alloc: Global,
    parameter: &Parameter,
    inside: &mut Inside,
    earlier: &mut NameSet,
    reached: &mut Reached,
    given: &Given,
    totals: &mut Totals,
) -> Result<Option<ElabFault>, Memory>
    ensures inside { OnOk result (inside.new ≡ inside.old) }
    ensures walked { IfOk result (λ g. (ms : List Module) (at : Place) (t : refused.Totals)
        → Alike inside.old.names (meanings_at at) → AreAround inside.old.around at
        → AreNames earlier.old at.earlier → IsReached reached.old at at.earlier
        → Gives given.now at → AreTotals totals.old t → AreWalked ms t totals.new (header at parameter.now ∷ []) g) }
    ensures earlier { OnOk result ((before : List (List ℕ)) → AreNames earlier.old before
        → AreNames earlier.new (before ++ parameter.now.name ∷ [])) }
    ensures reached { OnOk result ((at : Place) (before : List (List ℕ)) → Alike inside.old.names (meanings_at at)
        → IsReached reached.old at before → IsReached reached.new at (before ++ parameter.now.name ∷ [])) }
{
    let fault = header_fault(alloc, parameter, given, inside, earlier, reached)?;
    let added = Added {
        nodes: parameter_nodes(parameter),
        names: 0,
    };
    let pos = header_place(parameter, added, *totals);
    Ok(weighed(fault, added, pos, totals))
}

/// The parameters of a module's head: the first refusal of them. None exactly where none is refused; then they stand
/// behind the names before them, and are counted.
pub fn walk_headers(
    alloc: Global,
    parameters: &[HeaderParameter],
    inside: &mut Inside,
    earlier: &mut NameSet,
    reached: &mut Reached,
    given: &Given,
    totals: &mut Totals,
) -> Result<Option<ElabFault>, Memory>
    ensures inside { OnOk result (inside.new ≡ inside.old) }
    ensures walked { IfOk result (λ g. (ms : List Module) (at : Place) (t : refused.Totals)
        → Alike inside.old.names (meanings_at at) → AreAround inside.old.around at
        → AreNames earlier.old at.earlier → IsReached reached.old at at.earlier
        → Gives given.now at → AreTotals totals.old t
        → AreWalked ms t totals.new (header_steps at (header_parameters parameters.now)) g) }
    ensures earlier { IfOk result (λ g. g ≡ None → (at : Place)
        → Alike inside.old.names (meanings_at at) → AreAround inside.old.around at
        → AreNames earlier.old at.earlier → IsReached reached.old at at.earlier
        → Gives given.now at
        → AreNames earlier.new (at.earlier ++ parameter_names (header_parameters parameters.now))) }
    ensures reached { IfOk result (λ g. g ≡ None → (at : Place)
        → Alike inside.old.names (meanings_at at) → AreAround inside.old.around at
        → AreNames earlier.old at.earlier → IsReached reached.old at at.earlier
        → Gives given.now at
        → IsReached reached.new at (at.earlier ++ parameter_names (header_parameters parameters.now))) }
{
    for parameter in parameters {
        let found = walk_header(
            alloc,
            &parameter.parameter,
            inside,
            earlier,
            reached,
            given,
            totals,
        )?;
        if found.is_some() {
            return Ok(found);
        }
    }
    Ok(None)
}
