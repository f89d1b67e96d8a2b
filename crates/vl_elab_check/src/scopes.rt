//! Scopes that are entered and left, with what stands before a step in them.
ghost use Rattle.std.specs.Prelude.{◌≡◌, ◌∷◌, ◌++◌, [], ℕ, List, IfOk, OnOk, drop};
ghost use Rattle.vl_tree.specs.Item.{items};
ghost use Rattle.vl_tree.specs.WellFormed.{AreWellFormed, IsModule};
ghost use Rattle.vl_mean.specs.Walk as walk;
ghost use Rattle.vl_mean.specs.Walk.{Place, Use, block_place, module_place};
ghost use Rattle.vl_elab_spec.specs.Items.{is_valued};
ghost use Rattle.vl_elab_const.specs.Given.{value_given, IsGiven};
ghost use Rattle.vl_elab_decls.specs.Inputs.{AreInputs};
ghost use Rattle.vl_elab_check.specs.Judged.{top_use};
ghost use Rattle.vl_elab_check.specs.Standing.{HasScope, IsHanded, IsHere, IsWithin};

use fv_text::{List, Memory};
use std::alloc::Global;
use vl_elab_check_instance::joined_inputs;
use vl_elab_const::{Given, judged_by};
use vl_elab_decls::{Inputs, Inside, enter_block, enter_module, leave_scope};
use vl_elab_names::NameSet;
use vl_elab_params::Reached;
use vl_tree::{Connection, HeaderParameter, Instance, Item, Module, Port};

/// What stands before a step in its scope, and what is given to the scope's parameters.
#[derive(Drop)]
pub(crate) struct Here {
    pub(crate) earlier: NameSet,
    pub(crate) reached: Reached,
    pub(crate) given: Given,
}

/// A module that is used, before its first step.
#[derive(Drop)]
pub(crate) struct Used {
    pub(crate) inside: Inside,
    pub(crate) here: Here,
}

/// Enters the scope of a block with these items. What stands before it was handed over.
pub(crate) fn enter_scope(alloc: Global, all: &[Item], inside: &mut Inside) -> Result<Here, Memory>
    ensures names { OnOk result (drop 2 inside.new.names ≡ inside.old.names) }
    ensures numbers { OnOk result (drop 2 inside.new.numbers ≡ inside.old.numbers) }
    ensures clocks { OnOk result (inside.new.clocks ≡ inside.old.clocks) }
    ensures around { OnOk result (drop 1 inside.new.around ≡ inside.old.around) }
    ensures scope { OnOk result (HasScope inside.new) }
    ensures here { IfOk result (λ here. (at : Place) (path : List (List ℕ)) (text : List ℕ)
        → IsHanded inside.old path at → AreWellFormed (items all.now)
        → IsHere inside.new here path (block_place at text (items all.now))) }
{
    let around = &mut inside.around;
    enter_block(alloc, all, around, &mut inside.names, &mut inside.numbers)?;
    let reached = Reached::new(alloc, &[], all)?;
    Ok(Here {
        earlier: NameSet::new(alloc),
        reached,
        given: Given::new(alloc),
    })
}

/// Leaves the scope of a block.
pub(crate) fn leave(inside: &mut Inside)
    ensures { inside.new ≡ record inside.old {
      names = drop 2 inside.old.names;
      numbers = drop 2 inside.old.numbers;
      around = drop 1 inside.old.around;
    } }
{
    leave_scope(&mut inside.names, &mut inside.numbers);
    inside.around.leave();
}

pub(crate) fn header_of(all: &Option<List<HeaderParameter>>) -> &[HeaderParameter]
    ensures { result.now ≡ walk.header_of all.now }
{
    match all {
        None => &[],
        Some(all) => all.as_slice(),
    }
}

pub(crate) fn ports_of(all: &Option<List<Port>>) -> &[Port]
    ensures { result.now ≡ walk.written_ports all.now }
{
    match all {
        None => &[],
        Some(all) => all.as_slice(),
    }
}

pub(crate) fn connections_of(all: &Option<List<Connection>>) -> &[Connection]
    ensures { result.now ≡ walk.connections_of all.now }
{
    match all {
        None => &[],
        Some(all) => all.as_slice(),
    }
}

/// Enters a module that is used as `inputs` says, and whose parameters are given these values.
pub(crate) fn enter_used(
    alloc: Global,
    module: &Module,
    inputs: &Inputs,
    given: Given,
) -> Result<Used, Memory>
    ensures scope { IfOk result (λ used. HasScope used.inside) }
    ensures here { IfOk result (λ used. (u : Use) (text : List ℕ) (modules path : List (List ℕ))
        → AreInputs inputs.now u → IsGiven (value_given given) u.overrides → IsModule module.now
        → path ≡ modules ++ module.now.name ∷ []
        → IsHere used.inside used.here path (module_place module.now u text modules)) }
{
    let inside = enter_module(alloc, module, inputs, &given)?;
    let parameters = header_of(&module.parameters);
    let reached = Reached::new(alloc, parameters, module.items.as_slice())?;
    Ok(Used {
        inside,
        here: Here {
            earlier: NameSet::new(alloc),
            reached,
            given,
        },
    })
}

/// Enters the module of an instance.
pub(crate) fn enter_instance(
    alloc: Global,
    module: &Module,
    instance: &Instance,
    inside: &Inside,
) -> Result<Used, Memory>
    ensures scope { IfOk result (λ used. HasScope used.inside) }
    ensures here { IfOk result (λ used. (at : Place) (text : List ℕ) (path : List (List ℕ))
        → IsWithin inside.now at.modules at → IsModule module.now
        → path ≡ at.modules ++ module.now.name ∷ []
        → IsHere used.inside used.here path
        (module_place module.now (walk.use_of (is_valued at) at.scopes instance.now) text at.modules)) }
{
    let overrides = connections_of(&instance.overrides);
    let given = judged_by(alloc, overrides, &inside.names, &inside.numbers)?;
    let inputs = joined_inputs(
        alloc,
        instance.connections.as_slice(),
        &inside.numbers,
        &inside.clocks,
    )?;
    Ok(enter_used(alloc, module, &inputs, given)?)
}

/// Enters the top module.
pub(crate) fn enter_top(alloc: Global, module: &Module) -> Result<Used, Memory>
    ensures scope { IfOk result (λ used. HasScope used.inside) }
    ensures here { IfOk result (λ used. (path : List (List ℕ)) → IsModule module.now → path ≡ module.now.name ∷ []
        → IsHere used.inside used.here path (module_place module.now top_use [] [])) }
{
    Ok(enter_used(alloc, module, &Inputs::Top, Given::new(alloc))?)
}
