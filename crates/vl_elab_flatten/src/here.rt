//! Where the walk stands, and scopes of blocks and of turns that are opened and left.
ghost use Rattle.std.specs.Prelude.{◌≡◌, ◌∷◌, [], IfOk, OnOk, drop, true};
ghost use Rattle.vl_tree.specs.Item.{items};
ghost use Rattle.vl_mean.specs.Declarations as declarations;
ghost use Rattle.vl_mean.specs.Scopes as scopes_spec;
ghost use Rattle.vl_mean.specs.Walk as walk;
ghost use Rattle.vl_elab_spec.specs.Meanings as meanings;
ghost use Rattle.vl_elab_const.specs.Numbers.{HaveNumbers};
ghost use Rattle.vl_elab_const.specs.Openable.{IsOpenable};
ghost use Rattle.vl_elab_flatten.specs.Here.{block_scope};

use crate::constants::{add_items, add_number};
use crate::filling::fill;
use fv_text::{List, Memory, Text};
use std::alloc::Global;
use vl_elab_const::Given;
use vl_elab_decls::decls_of_items;
use vl_elab_draft::{Path, Scope, Scopes};
use vl_elab_names::ScopeNames;
use vl_elab_scope::{Level, Names};
use vl_mean::Const;
use vl_size::Decl;
use vl_tree::Item;

/// Where the walk stands.
#[derive(Drop)]
pub struct Here {
    /// The scopes in which names are read.
    pub scopes: Scopes,
    /// The numbers of the constants in them.
    pub numbers: Names,
    /// The path of the innermost scope, but of turns.
    pub path: Path,
    /// The names that are explicitly declared in it.
    pub names: ScopeNames,
}

/// What is kept of the scope around a block while the walk is in the block.
#[derive(Drop)]
pub struct Around {
    pub path: Path,
    pub names: ScopeNames,
}

/// Opens a block with these items under this path in the scopes that are open (IEEE 1364-2005, section 12.4): hands out
/// what it declares, in order.
fn enter_block(
    alloc: Global,
    all: &[Item],
    path: &Path,
    scopes: &mut Scopes,
    numbers: &mut Names,
) -> Result<List<Decl>, Memory>
    requires numbers { HaveNumbers numbers.old scopes.old }
    requires openable { IsOpenable (block_scope scopes.old path.now (items all.now)) }
    ensures scopes { OnOk result (scopes.new ≡ block_scope scopes.old path.now (items all.now) ∷ scopes.old) }
    ensures numbers { OnOk result (HaveNumbers numbers.new scopes.new) }
    ensures beneath { OnOk result (drop 1 numbers.new ≡ numbers.old) }
    ensures decls { IfOk result (λ decls. decls ≡ (block_scope scopes.old path.now (items all.now)).decls) }
{
    let nothing = Given::new(alloc);
    let mut scope = Scope::new(alloc, path.copied(alloc)?);
    numbers.enter(Level::new(alloc))?;
    add_items(alloc, all, &nothing, &nothing, &mut scope, numbers)?;
    let decls = decls_of_items(alloc, all, numbers)?;
    fill(alloc, decls.as_slice(), &mut scope, numbers)?;
    scopes.enter(scope)?;
    Ok(decls)
}

/// Opens a block with these items in the scopes that are open, under this path (IEEE 1364-2005, section 12.4): hands
/// out what it declares, in order, and what is needed to leave it.
pub fn open_block(
    alloc: Global,
    all: &[Item],
    path: Path,
    here: &mut Here,
) -> Result<(Around, List<Decl>), Memory>
    requires numbers { HaveNumbers here.old.numbers here.old.scopes }
    requires openable { IsOpenable (block_scope here.old.scopes path (items all.now)) }
    ensures scopes { OnOk result
        (here.new.scopes ≡ block_scope here.old.scopes path (items all.now) ∷ here.old.scopes) }
    ensures numbers { OnOk result (HaveNumbers here.new.numbers here.new.scopes) }
    ensures beneath { OnOk result (drop 1 here.new.numbers ≡ here.old.numbers) }
    ensures path { OnOk result (here.new.path ≡ path) }
    ensures names { OnOk result (here.new.names ≡ declarations.all_names (items all.now)) }
    ensures decls { IfOk result (λ opened. opened.1
        ≡ (block_scope here.old.scopes path (items all.now)).decls) }
    ensures around { IfOk result (λ opened. (opened.0.path ≡ here.old.path) × (opened.0.names ≡ here.old.names)) }
{
    let decls = enter_block(alloc, all, &path, &mut here.scopes, &mut here.numbers)?;
    let names = ScopeNames::of_items(alloc, all)?;
    let around = Around {
        path: std::mem::replace(&mut here.path, path),
        names: std::mem::replace(&mut here.names, names),
    };
    Ok((around, decls))
}

/// Leaves the innermost scope, which is a block's.
pub(crate) fn leave_block(around: Around, here: &mut Here)
    ensures scopes { here.new.scopes ≡ drop 1 here.old.scopes }
    ensures numbers { here.new.numbers ≡ drop 1 here.old.numbers }
    ensures path { here.new.path ≡ around.path }
    ensures names { here.new.names ≡ around.names }
{
    let _ = here.scopes.leave();
    here.numbers.leave();
    here.path = around.path;
    here.names = around.names;
}

fn enter_turn(
    alloc: Global,
    variable: &Text,
    value: Const,
    scopes: &mut Scopes,
    numbers: &mut Names,
) -> Result<(), Memory>
    ensures scopes { OnOk result (scopes.new ≡ walk.with_genvar variable.now value scopes.old) }
    ensures numbers { OnOk result (numbers.new ≡ ((variable.now, meanings.constant value true) ∷ []) ∷ numbers.old) }
{
    let mut scope = Scope::new(alloc, Path::top(alloc));
    scope.add_constant(variable.copied(alloc)?, value)?;
    scopes.enter(scope)?;
    numbers.enter(Level::new(alloc))?;
    add_number(alloc, variable, value, numbers)
}

/// Opens the scope of a turn, in which the loop's variable is a constant (IEEE 1364-2005, section 12.4.1).
pub fn open_turn(
    alloc: Global,
    variable: &Text,
    value: Const,
    here: &mut Here,
) -> Result<(), Memory>
    ensures scopes { OnOk result (here.new.scopes ≡ walk.with_genvar variable.now value here.old.scopes) }
    ensures numbers { OnOk result (HaveNumbers here.old.numbers here.old.scopes
        → HaveNumbers here.new.numbers here.new.scopes) }
    ensures beneath { OnOk result (drop 1 here.new.numbers ≡ here.old.numbers) }
    ensures path { OnOk result (here.new.path ≡ here.old.path) }
    ensures names { OnOk result (here.new.names ≡ here.old.names) }
{
    enter_turn(alloc, variable, value, &mut here.scopes, &mut here.numbers)
}

/// Leaves the innermost scope, which is a turn's.
pub(crate) fn leave_turn(here: &mut Here)
    ensures scopes { here.new.scopes ≡ drop 1 here.old.scopes }
    ensures numbers { here.new.numbers ≡ drop 1 here.old.numbers }
    ensures path { here.new.path ≡ here.old.path }
    ensures names { here.new.names ≡ here.old.names }
{
    let _ = here.scopes.leave();
    here.numbers.leave();
}
