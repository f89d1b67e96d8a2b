//! Scopes that are entered and left.
ghost use Rattle.std.specs.Prelude.{◌≡◌, ◌∷◌, ◌++◌, [], ℕ, List, Bool, None, IfOk, OnOk, drop};
ghost use Rattle.vl_tree.specs.Item.{items};
ghost use Rattle.vl_mean.specs.Declarations.{declared, declared_ports, full_ports, with_constants};
ghost use Rattle.vl_mean.specs.Scopes.{Scope};
ghost use Rattle.vl_mean.specs.Walk as walk;
ghost use Rattle.vl_mean.specs.Walk.{Place, Use, block_place, port_names};
ghost use Rattle.vl_elab_spec.specs.Meanings as meanings;
ghost use Rattle.vl_elab_spec.specs.Meanings.{Names as Scoped};
ghost use Rattle.vl_elab_spec.specs.Meanings.{items_names, meanings_at, items_meanings, port_meanings};
ghost use Rattle.vl_elab_scope.specs.Seen.{innermost};
ghost use Rattle.vl_elab_scope.specs.Alike.{Alike};
ghost use Rattle.vl_elab_const.specs.Given.{value_given, IsGiven};
ghost use Rattle.vl_elab_const.specs.Numbers.{HaveNumbers};
ghost use Rattle.vl_elab_names.specs.Known.{contains};
ghost use Rattle.vl_elab_params.specs.Among.{contents, constants_of, parameter_meanings};
ghost use Rattle.vl_elab_params.specs.Own.{AreBehind, AreOwn};
ghost use Rattle.vl_elab_params.specs.Reached.{AreAround, AreBefore};
ghost use Rattle.vl_elab_decls.specs.Inputs.{AreInputs};
ghost use Rattle.vl_elab_decls.specs.Shaped.{ArePlain, AreShaped, IsDeclared};
ghost use Rattle.vl_elab_decls.specs.Stands.{Stands};

use crate::clocks::clock_inputs;
use crate::hidden::hide;
use crate::inputs::Inputs;
use crate::objects::objects_of_scope;
use fv_text::{List, Memory};
use std::alloc::Global;
use vl_elab_const::Given;
use vl_elab_names::NameSet;
use vl_elab_params::{enter_parameters, shadows};
use vl_elab_scope::{Level, Names};
use vl_tree::{HeaderParameter, Item, Module, Port};

/// In place of the names that stand behind the parameters, which are innermost, what they mean.
fn enter_objects(
    alloc: Global,
    inputs: &Inputs,
    ports: &[Port],
    all: &[Item],
    names: &mut Names,
) -> Result<(), Memory>
    ensures stack { OnOk result (names.new ≡ innermost names.old ∷ innermost (drop 1 names.new) ∷ drop 2 names.old) }
    ensures shaped { OnOk result ((s : Scope) (outer known : List meanings.Names) (ss : List Scope) (u : Use)
        → AreInputs inputs.now u → Alike names.old known
        → IsDeclared s known ss u (full_ports None ports.now) (items all.now)
        → AreShaped (innermost (drop 1 names.new))
        (port_meanings s outer known (full_ports None ports.now)
        ++ items_meanings s outer known (items all.now)) s.decls) }
{
    let rest = objects_of_scope(alloc, inputs, ports, all, names)?;
    let own = names.take(alloc);
    names.leave();
    names.enter(rest)?;
    names.enter(own)
}

/// Enters a block with these items as far as its parameters, which use what is said of those of the scopes around.
fn enter_own(
    alloc: Global,
    all: &[Item],
    around: &mut Names,
    names: &mut Names,
    numbers: &mut Names,
) -> Result<(), Memory>
    ensures around { OnOk result (around.new ≡ around.old) }
    ensures names { OnOk result (names.new
        ≡ innermost names.new ∷ innermost (drop 1 names.new) ∷ names.old) }
    ensures numbers { OnOk result (drop 1 numbers.new ≡ numbers.old) }
    ensures behind { OnOk result (AreBehind (innermost (drop 1 names.new))
        (meanings.all_later (contents [] [] [] all.now))) }
    ensures constants { OnOk result ((s : Scope) (before : List Scoped) (ss : List Scope)
        → Alike (around.old ++ names.old) before → HaveNumbers numbers.old ss
        → s.constants ≡ constants_of ss (contents [] [] [] all.now)
        → HaveNumbers numbers.new (with_constants s.constants ss)) }
    ensures own { OnOk result ((s : Scope) (before : List Scoped) (ss : List Scope)
        → Alike (around.old ++ names.old) before → HaveNumbers numbers.old ss
        → s.constants ≡ constants_of ss (contents [] [] [] all.now)
        → AreOwn (innermost names.new) (innermost numbers.new)
        (parameter_meanings s before (contents [] [] [] all.now)) s.constants) }
{
    let nothing = Given::new(alloc);
    let count = names.lay(around)?;
    enter_parameters(alloc, &[], &[], all, &nothing, names, numbers)?;
    let own = names.take(alloc);
    let behind = names.take(alloc);
    *around = names.lift(count)?;
    names.enter(behind)?;
    names.enter(own)
}

/// Enters the scope of a block with these items. `around`: what is said of the parameters of the scopes around, with
/// what their names mean in the block behind it; `names`: what names mean, `numbers`: the numbers of constants.
pub fn enter_block(
    alloc: Global,
    all: &[Item],
    around: &mut Names,
    names: &mut Names,
    numbers: &mut Names,
) -> Result<(), Memory>
    ensures around { OnOk result (drop 1 around.new ≡ around.old) }
    ensures names { OnOk result (drop 2 names.new ≡ names.old) }
    ensures numbers { OnOk result (drop 2 numbers.new ≡ numbers.old) }
    ensures inside { OnOk result (numbers.new ≡ innermost numbers.new ∷ drop 1 numbers.new) }
    ensures stands { OnOk result ((at : Place) (path : List ℕ) (clocks : List ℕ → Bool)
        → AreBefore around.old at at.earlier
        → Stands names.old numbers.old clocks (meanings_at at) at.scopes → ArePlain (items_names (items all.now))
        → Stands names.new numbers.new clocks (meanings_at (block_place at path (items all.now)))
        (block_place at path (items all.now)).scopes) }
    ensures shapes { OnOk result ((at : Place) (path : List ℕ) (clocks : List ℕ → Bool)
        → AreBefore around.old at at.earlier → Stands names.old numbers.old clocks (meanings_at at) at.scopes
        → HaveNumbers (drop 1 numbers.new) (block_place at path (items all.now)).around) }
    ensures parameters { OnOk result ((at : Place) (path : List ℕ) (clocks : List ℕ → Bool)
        → AreBefore around.old at at.earlier
        → Stands names.old numbers.old clocks (meanings_at at) at.scopes → ArePlain (items_names (items all.now))
        → AreAround around.new (block_place at path (items all.now))) }
{
    enter_own(alloc, all, around, names, numbers)?;
    enter_objects(alloc, &Inputs::Top, &[], all, names)?;
    hide(alloc, all, numbers)?;
    let own = shadows(alloc, all, names, around)?;
    around.enter(own)
}

/// Leaves the innermost scope.
pub fn leave_scope(names: &mut Names, numbers: &mut Names)
    ensures names { names.new ≡ drop 2 names.old }
    ensures numbers { numbers.new ≡ drop 2 numbers.old }
{
    names.leave();
    names.leave();
    numbers.leave();
    numbers.leave();
}

fn header_of(all: &Option<List<HeaderParameter>>) -> &[HeaderParameter]
    ensures { result.now ≡ walk.header_of all.now }
{
    match all {
        None => &[],
        Some(all) => all.as_slice(),
    }
}

fn ports_of(all: &Option<List<Port>>) -> &[Port]
    ensures { result.now ≡ walk.written_ports all.now }
{
    match all {
        None => &[],
        Some(all) => all.as_slice(),
    }
}

/// What is known in a module.
#[derive(Drop)]
pub struct Inside {
    /// What names mean.
    pub names: Names,
    /// The numbers of constants.
    pub numbers: Names,
    /// The inputs that are the clock.
    pub clocks: NameSet,
    /// What is said of the parameters of the scopes around, as far as the walk has come in them.
    pub around: Names,
}

/// Enters a scope by its parts.
fn enter_parts(
    alloc: Global,
    parameters: &[HeaderParameter],
    ports: &[Port],
    all: &[Item],
    inputs: &Inputs,
    given: &Given,
) -> Result<Inside, Memory>
    ensures stands { IfOk result (λ inside. (s : Scope) (u : Use)
        → AreInputs inputs.now u → IsGiven (value_given given.now) u.overrides
        → ArePlain (port_names (full_ports None ports.now) ++ items_names (items all.now))
        → s.constants ≡ constants_of [] (contents u.overrides parameters.now ports.now all.now)
        → s.decls ≡ declared_ports (with_constants s.constants []) u.is_top u.input (full_ports None ports.now)
        ++ declared (with_constants s.constants []) (items all.now)
        → Stands inside.names inside.numbers (contains inside.clocks)
        (meanings.scope_meanings s [] [] (contents u.overrides parameters.now ports.now all.now) ∷ []) (s ∷ [])) }
    ensures around { IfOk result (λ inside. (s : Scope) (u : Use)
        → IsGiven (value_given given.now) u.overrides
        → s.constants ≡ constants_of [] (contents u.overrides parameters.now ports.now all.now)
        → HaveNumbers (drop 1 inside.numbers) (with_constants s.constants [])) }
    ensures inside { IfOk result (λ inside. inside.numbers ≡ innermost inside.numbers ∷ drop 1 inside.numbers) }
    ensures parameters { IfOk result (λ inside. inside.around ≡ []) }
{
    let mut names = Names::new(alloc);
    let mut numbers = Names::new(alloc);
    enter_parameters(
        alloc,
        parameters,
        ports,
        all,
        given,
        &mut names,
        &mut numbers,
    )?;
    enter_objects(alloc, inputs, ports, all, &mut names)?;
    numbers.enter(Level::new(alloc))?;
    let clocks = clock_inputs(alloc, inputs, ports)?;
    Ok(Inside {
        names,
        numbers,
        clocks,
        around: Names::new(alloc),
    })
}

/// Enters a module that is used as `inputs` says, and whose parameters are given these values.
pub fn enter_module(
    alloc: Global,
    module: &Module,
    inputs: &Inputs,
    given: &Given,
) -> Result<Inside, Memory>
    ensures stands { IfOk result (λ inside. (u : Use) (path : List ℕ)
        → AreInputs inputs.now u → IsGiven (value_given given.now) u.overrides
        → ArePlain (port_names (walk.module_contents module.now u).ports ++ items_names (items module.now.items))
        → Stands inside.names inside.numbers (contains inside.clocks)
        (meanings.all_meanings (walk.module_scope module.now u path ∷ []) (walk.module_contents module.now u ∷ []))
        (walk.module_scope module.now u path ∷ [])) }
    ensures around { IfOk result (λ inside. (u : Use)
        → IsGiven (value_given given.now) u.overrides
        → HaveNumbers (drop 1 inside.numbers) (walk.module_around module.now u)) }
    ensures inside { IfOk result (λ inside. inside.numbers ≡ innermost inside.numbers ∷ drop 1 inside.numbers) }
    ensures parameters { IfOk result (λ inside. inside.around ≡ []) }
{
    let parameters = header_of(&module.parameters);
    let ports = ports_of(&module.ports);
    let all = module.items.as_slice();
    enter_parts(alloc, parameters, ports, all, inputs, given)
}
