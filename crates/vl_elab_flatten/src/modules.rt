//! Scopes of modules that are opened.
ghost use Rattle.std.specs.Prelude.{◌≡◌, ◌∷◌, [], IfOk, OnOk};
ghost use Rattle.vl_tree.specs.Item.{items};
ghost use Rattle.vl_mean.specs.Walk as walk;
ghost use Rattle.vl_mean.specs.Walk.{Use};
ghost use Rattle.vl_elab_const.specs.Given.{value_given, IsGiven};
ghost use Rattle.vl_elab_const.specs.Numbers.{HaveNumbers};
ghost use Rattle.vl_elab_decls.specs.Inputs.{AreInputs};
ghost use Rattle.vl_elab_flatten.specs.Levels as levels;
ghost use Rattle.vl_elab_flatten.specs.Modules as spec;

use crate::constants::{add_header, add_items};
use crate::filling::fill;
use crate::here::Here;
use fv_text::{List, Memory};
use std::alloc::Global;
use vl_elab_const::Given;
use vl_elab_decls::{Inputs, decls_of_items, decls_of_ports};
use vl_elab_draft::{Path, Scope, Scopes};
use vl_elab_names::ScopeNames;
use vl_elab_scope::{Level, Names};
use vl_size::Decl;
use vl_tree::{HeaderParameter, Item, Module, Port};

/// A module that is opened, and what its ports and its items declare, each in order.
#[derive(Drop)]
pub struct Opened {
    pub here: Here,
    pub ports: List<Decl>,
    pub decls: List<Decl>,
}

fn header_of(all: &Option<List<HeaderParameter>>) -> &[HeaderParameter]
    ensures { result.now ≡ walk.header_of all.now }
{
    match all {
        None => &[],
        Some(all) => all.as_slice(),
    }
}

/// The ports of a module, as they are written.
pub(crate) fn written_ports(all: &Option<List<Port>>) -> &[Port]
    ensures { result.now ≡ walk.written_ports all.now }
{
    match all {
        None => &[],
        Some(all) => all.as_slice(),
    }
}

/// The constants of a module.
fn constants_of(
    alloc: Global,
    header: &[HeaderParameter],
    all: &[Item],
    given: &Given,
    scope: &mut Scope,
    numbers: &mut Names,
) -> Result<(), Memory>
    ensures { OnOk result (levels.Adds (value_given given.now)
        (λ os ss cs. spec.with_all_parameters os ss cs header.now (items all.now))
        (spec.all_constants header.now (items all.now)) scope.old numbers.old scope.new numbers.new) }
{
    let nothing = Given::new(alloc);
    add_header(alloc, header, given, scope, numbers)?;
    add_items(alloc, all, given, &nothing, scope, numbers)
}

/// No numbers around, and none so far.
fn one_level(alloc: Global) -> Result<Names, Memory>
    ensures { IfOk result (λ numbers. numbers ≡ [] ∷ []) }
{
    let mut numbers = Names::new(alloc);
    numbers.enter(Level::new(alloc))?;
    Ok(numbers)
}

fn alone(alloc: Global, scope: Scope) -> Result<Scopes, Memory>
    ensures { IfOk result (λ scopes. scopes ≡ scope ∷ []) }
{
    let mut scopes = Scopes::new(alloc);
    scopes.enter(scope)?;
    Ok(scopes)
}

/// What stands in a module's scope: its constants, and what its ports and its items declare.
#[derive(Drop)]
struct Contents {
    scope: Scope,
    numbers: Names,
    ports: List<Decl>,
    decls: List<Decl>,
}

/// With constants alone in the scope.
fn read_contents(
    alloc: Global,
    header: &[HeaderParameter],
    ports: &[Port],
    all: &[Item],
    inputs: &Inputs,
    given: &Given,
    path: &Path,
) -> Result<Contents, Memory>
    requires { spec.CanOpen header.now ports.now (items all.now) inputs.now (value_given given.now) path.now }
    ensures { IfOk result (λ contents. (u : Use) → AreInputs inputs.now u
        → IsGiven (value_given given.now) u.overrides
        → spec.AreRead header.now ports.now (items all.now) u path.now contents) }
{
    let mut scope = Scope::new(alloc, path.copied(alloc)?);
    let mut numbers = one_level(alloc)?;
    constants_of(alloc, header, all, given, &mut scope, &mut numbers)?;
    let ports = decls_of_ports(alloc, inputs, ports, &numbers)?;
    let decls = decls_of_items(alloc, all, &numbers)?;
    Ok(Contents {
        scope,
        numbers,
        ports,
        decls,
    })
}

/// Declares what the ports and the items declare in the scope.
fn fill_contents(alloc: Global, contents: &mut Contents) -> Result<(), Memory>
    requires { spec.CanFill contents.old }
    ensures { OnOk result (spec.AreFilled contents.old contents.new) }
{
    fill(
        alloc,
        contents.ports.as_slice(),
        &mut contents.scope,
        &mut contents.numbers,
    )?;
    fill(
        alloc,
        contents.decls.as_slice(),
        &mut contents.scope,
        &mut contents.numbers,
    )?;
    Ok(())
}

fn open_contents(
    alloc: Global,
    header: &[HeaderParameter],
    ports: &[Port],
    all: &[Item],
    inputs: &Inputs,
    given: &Given,
    path: Path,
) -> Result<Opened, Memory>
    requires { spec.CanOpen header.now ports.now (items all.now) inputs.now (value_given given.now) path }
    ensures { IfOk result (λ opened. (u : Use) → AreInputs inputs.now u → IsGiven (value_given given.now) u.overrides
        → spec.IsOpened header.now ports.now (items all.now) u path opened) }
{
    let mut contents = read_contents(alloc, header, ports, all, inputs, given, &path)?;
    fill_contents(alloc, &mut contents)?;
    let Contents {
        scope,
        numbers,
        ports,
        decls,
    } = contents;
    let scopes = alone(alloc, scope)?;
    let names = ScopeNames::of_module(alloc, header, ports.as_slice(), all)?;
    let here = Here {
        scopes,
        numbers,
        path,
        names,
    };
    Ok(Opened { here, ports, decls })
}

/// Opens a module that is used as `inputs` says, and whose parameters are given these values, under this path (IEEE
/// 1364-2005, sections 12.1 to 12.3).
pub fn open_module(
    alloc: Global,
    module: &Module,
    inputs: &Inputs,
    given: &Given,
    path: Path,
) -> Result<Opened, Memory>
    requires { spec.IsModuleOpenable module.now inputs.now (value_given given.now) path }
    ensures { IfOk result (λ opened. (u : Use) → AreInputs inputs.now u → IsGiven (value_given given.now) u.overrides
        → spec.IsModuleOpened module.now u path opened) }
{
    open_contents(
        alloc,
        header_of(&module.parameters),
        written_ports(&module.ports),
        module.items.as_slice(),
        inputs,
        given,
        path,
    )
}
