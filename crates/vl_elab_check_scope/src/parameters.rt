//! Parameters of heads and of items.
ghost use Rattle.std.specs.Prelude.{◌≡◌, ◌&&◌, ◌++◌, ◌∷◌, [], ℕ, List, map, not, is_some, IfOk, OnOk};
ghost use Rattle.vl_mean.specs.Cells.{contains_name};
ghost use Rattle.vl_mean.specs.Walk.{Place};
ghost use Rattle.vl_elab_spec.specs.Items as items;
ghost use Rattle.vl_elab_spec.specs.Meanings.{meanings_at};
ghost use Rattle.vl_elab_spec.specs.Refused.{lowest};
ghost use Rattle.vl_elab_scope.specs.Alike.{Alike};
ghost use Rattle.vl_elab_const.specs.Given.{value_given};
ghost use Rattle.vl_elab_names.specs.Known.{AreNames, contains};
ghost use Rattle.vl_elab_check_scope.specs.Parts.{with_name};
ghost use Rattle.vl_elab_params.specs.Reached.{AreAround, AreBefore, IsReached};
ghost use Rattle.vl_elab_check_scope.specs.Gives.{Gives};

use fv_text::{Memory, Text};
use std::alloc::Global;
use vl_elab_check_expr::first_of;
use vl_elab_check_item::parameter_fault;
use vl_elab_const::Given;
use vl_elab_decls::Inside;
use vl_elab_names::NameSet;
use vl_elab_params::Reached;
use vl_elab_scope::Names;
use vl_elab_spec::ElabFault;
use vl_tree::{Parameter, ParameterKind};

/// Over what names mean in its value: `before`, of the parameters, goes before the others.
fn judge_before(
    alloc: Global,
    parameter: &Parameter,
    is_twice: bool,
    is_given: bool,
    before: &mut Names,
    names: &mut Names,
) -> Result<Option<ElabFault>, Memory>
    ensures before { OnOk result (before.new ≡ before.old) }
    ensures names { OnOk result (names.new ≡ names.old) }
    ensures fault { IfOk result (λ g. (at : Place) (stand : List (List ℕ)) → Alike names.old (meanings_at at)
        → AreBefore before.old at stand → is_twice ≡ contains_name stand parameter.now.name
        → g ≡ lowest (items.parameter_refusals at is_given stand parameter.now)) }
{
    let count = names.lay(before)?;
    let fault = parameter_fault(alloc, parameter, is_twice, is_given, names)?;
    *before = names.lift(count)?;
    Ok(fault)
}

fn judge(
    alloc: Global,
    parameter: &Parameter,
    is_given: bool,
    inside: &mut Inside,
    earlier: &NameSet,
    reached: &mut Reached,
) -> Result<Option<ElabFault>, Memory>
    ensures inside { OnOk result (inside.new ≡ inside.old) }
    ensures reached { OnOk result (reached.new ≡ reached.old) }
    ensures fault { IfOk result (λ g. (at : Place) (before : List (List ℕ)) → Alike inside.old.names (meanings_at at)
        → AreAround inside.old.around at → AreNames earlier.now before → IsReached reached.old at before
        → g ≡ lowest (items.parameter_refusals at is_given before parameter.now)) }
{
    reached.hand_over(alloc, &mut inside.around)?;
    let is_twice = earlier.contains(&parameter.name);
    let around = &mut inside.around;
    let fault = judge_before(
        alloc,
        parameter,
        is_twice,
        is_given,
        around,
        &mut inside.names,
    )?;
    reached.take_back(alloc, &mut inside.around);
    Ok(fault)
}

fn add_name(alloc: Global, text: &Text, earlier: &mut NameSet) -> Result<(), Memory>
    ensures { OnOk result ((other : List ℕ)
        → contains earlier.new other ≡ with_name (contains earlier.old) text.now other) }
{
    earlier.add(text.copied(alloc)?)
}

/// A parameter, which stands behind the others then.
fn with_parameter(
    alloc: Global,
    parameter: &Parameter,
    is_given: bool,
    inside: &mut Inside,
    earlier: &mut NameSet,
    reached: &mut Reached,
) -> Result<Option<ElabFault>, Memory>
    ensures inside { OnOk result (inside.new ≡ inside.old) }
    ensures fault { IfOk result (λ g. (at : Place) (before : List (List ℕ)) → Alike inside.old.names (meanings_at at)
        → AreAround inside.old.around at → AreNames earlier.old before → IsReached reached.old at before
        → g ≡ lowest (items.parameter_refusals at is_given before parameter.now)) }
    ensures earlier { OnOk result ((before : List (List ℕ)) → AreNames earlier.old before
        → AreNames earlier.new (before ++ parameter.now.name ∷ [])) }
    ensures reached { OnOk result ((at : Place) (before : List (List ℕ)) → Alike inside.old.names (meanings_at at)
        → IsReached reached.old at before → IsReached reached.new at (before ++ parameter.now.name ∷ [])) }
{
    let fault = judge(alloc, parameter, is_given, inside, earlier, reached)?;
    add_name(alloc, &parameter.name, earlier)?;
    reached.pass(alloc, &parameter.name, &inside.names)?;
    Ok(fault)
}

/// A parameter of a module's head. `given`: what the instance gives to the module's parameters; `inside`: what is
/// known in the module; `earlier`, `reached`: what stands before it, and then it itself too.
pub fn header_fault(
    alloc: Global,
    parameter: &Parameter,
    given: &Given,
    inside: &mut Inside,
    earlier: &mut NameSet,
    reached: &mut Reached,
) -> Result<Option<ElabFault>, Memory>
    ensures inside { OnOk result (inside.new ≡ inside.old) }
    ensures fault { IfOk result (λ g. (at : Place) → Alike inside.old.names (meanings_at at)
        → AreAround inside.old.around at → AreNames earlier.old at.earlier → IsReached reached.old at at.earlier
        → Gives given.now at
        → g ≡ lowest (items.parameter_refusals at (items.is_given at.contents parameter.now.name) at.earlier
        parameter.now)) }
    ensures earlier { OnOk result ((before : List (List ℕ)) → AreNames earlier.old before
        → AreNames earlier.new (before ++ parameter.now.name ∷ [])) }
    ensures reached { OnOk result ((at : Place) (before : List (List ℕ)) → Alike inside.old.names (meanings_at at)
        → IsReached reached.old at before → IsReached reached.new at (before ++ parameter.now.name ∷ [])) }
{
    let is_given = given.get(&parameter.name).is_some();
    with_parameter(alloc, parameter, is_given, inside, earlier, reached)
}

/// A `localparam` isn't given a value.
#[tactic(auto, using(crate::proofs::Behind::tests))]
fn is_given(kind: ParameterKind, parameter: &Parameter, given: &Given) -> bool
    ensures { result ≡ (not (items.is_localparam kind) && is_some (value_given given.now parameter.now.name)) }
{
    match kind {
        ParameterKind::Localparam => false,
        ParameterKind::Parameter => given.get(&parameter.name).is_some(),
    }
}

/// The parameters of an item, one behind the other. The rest is as with those of a head.
pub fn parameters_fault(
    alloc: Global,
    kind: ParameterKind,
    all: &[Parameter],
    given: &Given,
    inside: &mut Inside,
    earlier: &mut NameSet,
    reached: &mut Reached,
) -> Result<Option<ElabFault>, Memory>
    ensures inside { OnOk result (inside.new ≡ inside.old) }
    ensures fault { IfOk result (λ g. (at : Place) (before : List (List ℕ)) → Alike inside.old.names (meanings_at at)
        → AreAround inside.old.around at → AreNames earlier.old before → IsReached reached.old at before
        → Gives given.now at
        → g ≡ lowest (items.parameters_refusals at kind before all.now)) }
    ensures earlier { OnOk result ((before : List (List ℕ)) → AreNames earlier.old before
        → AreNames earlier.new (before ++ map (λ x. x.name) all.now)) }
    ensures reached { OnOk result ((at : Place) (before : List (List ℕ)) → Alike inside.old.names (meanings_at at)
        → IsReached reached.old at before → IsReached reached.new at (before ++ map (λ x. x.name) all.now)) }
{
    let mut fault = None;
    for parameter in all {
        let test = is_given(kind, parameter, given);
        let found = with_parameter(alloc, parameter, test, inside, earlier, reached)?;
        fault = first_of(fault, found);
    }
    Ok(fault)
}
