//! The walk through the items of a scope, the blocks of generate constructs, and the modules of instances.

ghost use Rattle.std.specs.Prelude.{◌≡◌, ◌∷◌, ◌++◌, [], ℕ, List, false, IfOk, OnOk};
ghost use Rattle.vl_tree.specs.Item as tree;
ghost use Rattle.fv_text.specs.declared.pos.Pos.{Pos as SpecPos};
ghost use Rattle.vl_tree.specs.declared.item.ItemKind.TheVariants as kind;
ghost use Rattle.vl_tree.specs.Attributes.{Attributes};
ghost use Rattle.vl_tree.specs.ItemView.{block as block_of, shown};
ghost use Rattle.vl_tree.specs.WellFormed.{AreWellFormed, IsBlock, IsModule, IsWellFormed};
ghost use Rattle.vl_mean.specs.declared.const_number.Const.{Const as SpecConst};
ghost use Rattle.vl_mean.specs.Cells.{contains_name};
ghost use Rattle.vl_mean.specs.Walk.{Place, block_place, block_walk, instance_steps, item_walk, items_walk, loop_walk};
ghost use Rattle.vl_mean.specs.Walk.{module_place, turn_place, turn_walk, use_of, with_earlier};
ghost use Rattle.vl_elab_spec.specs.Items.{is_valued};
ghost use Rattle.vl_elab_spec.specs.Meanings.{item_names};
ghost use Rattle.vl_elab_spec.specs.Refused as refused;
ghost use Rattle.vl_elab_names.specs.Table.{AreModules};
ghost use Rattle.vl_elab_spec.specs.Walked.{AreWalked};
ghost use Rattle.vl_elab_spec.specs.Within as within;
ghost use Rattle.vl_elab_params.specs.Reached.{IsReached};
ghost use Rattle.vl_elab_check.specs.Standing.{HasScope, IsHanded, IsHere, IsSoFar, IsWithin, below};

use crate::bare::is_bare;
use crate::conditions::{chosen_by, condition_value};
use crate::items::walk_item;
use crate::progress::{Source, Walk};
use crate::scopes::{Here, enter_instance, enter_scope, leave};
use crate::steps::{begin_block, open, pass};
use crate::turns;
use crate::turns::{first_value, next_value, turn_limit};
use fv_text::Memory;
use vl_elab_decls::Inside;
use vl_elab_params::Reached;
use vl_elab_scope::blocks::{items_of, nested};
use vl_elab_spec::ElabFault;
use vl_mean::Const;
use vl_tree::{Block, Expr, Instance, Item, ItemKind, LoopHead, Module};

/// The items of a scope.
#[cycle(walk)]
pub(crate) fn walk_items(
    source: &Source<'_>,
    walk: &mut Walk,
    inside: &mut Inside,
    here: &mut Here,
    all: &[Item],
) -> Result<Option<ElabFault>, Memory>
    requires table { AreModules source.now.table.now source.now.modules.now }
    requires scope { HasScope inside.old }
    ensures inside { OnOk result (inside.new ≡ inside.old) }
    ensures path { OnOk result (walk.new.path ≡ walk.old.path) }
    ensures walked { IfOk result (λ g. (t : refused.Totals) (at : Place) (n : ℕ)
        → IsSoFar source.now.modules.now walk.old.totals t → AreWellFormed (tree.items all.now)
        → IsHere inside.old here.old walk.old.path at → AreWalked source.now.modules.now t walk.new.totals
        (items_walk is_valued source.now.modules.now (below source.now) (tree.items all.now) at n) g) }
{
    for part in all {
        let fault = walk_one(source, walk, inside, here, part)?;
        if fault.is_some() {
            return Ok(fault);
        }
        pass(walk.alloc, part, inside, here)?;
    }
    Ok(None)
}

/// An item, and what is in it.
#[cycle(walk)]
fn walk_one(
    source: &Source<'_>,
    walk: &mut Walk,
    inside: &mut Inside,
    here: &mut Here,
    part: &Item,
) -> Result<Option<ElabFault>, Memory>
    requires table { AreModules source.now.table.now source.now.modules.now }
    requires scope { HasScope inside.old }
    ensures inside { OnOk result (inside.new ≡ inside.old) }
    ensures path { OnOk result (walk.new.path ≡ walk.old.path) }
    ensures here { OnOk result ((at : Place) → IsHere inside.old here.old walk.old.path at
        → IsHere inside.new here.new walk.new.path (with_earlier at (item_names part.now))) }
    ensures walked { IfOk result (λ g. (t : refused.Totals) (at : Place) (n : ℕ)
        → IsSoFar source.now.modules.now walk.old.totals t → IsWellFormed part.now
        → IsHere inside.old here.old walk.old.path at → AreWalked source.now.modules.now t walk.new.totals
        (item_walk is_valued source.now.modules.now (below source.now) part.now at n) g) }
{
    let fault = walk_item(source, walk, inside, here, part)?;
    if fault.is_some() {
        return Ok(fault);
    }
    Ok(walk_within(source, walk, inside, here, part)?)
}

/// What is in an item.
#[cycle(walk)]
fn walk_within(
    source: &Source<'_>,
    walk: &mut Walk,
    inside: &mut Inside,
    here: &mut Here,
    part: &Item,
) -> Result<Option<ElabFault>, Memory>
    requires table { AreModules source.now.table.now source.now.modules.now }
    requires scope { HasScope inside.old }
    ensures inside { OnOk result (inside.new ≡ inside.old) }
    ensures path { OnOk result (walk.new.path ≡ walk.old.path) }
    ensures here { OnOk result ((at : Place) → IsHere inside.old here.old walk.old.path at
        → IsHere inside.new here.new walk.new.path at) }
    ensures walked { IfOk result (λ g. (t : refused.Totals) (at : Place) (n : ℕ)
        → IsSoFar source.now.modules.now walk.old.totals t → IsWellFormed part.now → within.IsNotRecursive part.now at
        → IsHere inside.old here.old walk.old.path (with_earlier at (item_names part.now))
        → AreWalked source.now.modules.now t walk.new.totals
        (within.inner_walk is_valued source.now.modules.now (below source.now) part.now at n) g) }
{
    match &part.kind {
        ItemKind::Instance(instance) => Ok(walk_instance(source, walk, inside, instance)?),
        ItemKind::For(head, block) => Ok(walk_turns(source, walk, inside, here, head, block)?),
        ItemKind::If(condition, first, second) => Ok(walk_if(
            source, walk, inside, here, condition, first, second,
        )?),
        ItemKind::Declaration(_) | ItemKind::Integer(_) | ItemKind::Genvar(_) => Ok(None),
        ItemKind::Parameter(_, _) | ItemKind::Assign(_) | ItemKind::Always(_, _) => Ok(None),
        ItemKind::Initial(_) | ItemKind::Generate(_) => Ok(None),
    }
}

/// The chosen block of an `if`.
#[cycle(walk)]
fn walk_if(
    source: &Source<'_>,
    walk: &mut Walk,
    inside: &mut Inside,
    here: &mut Here,
    condition: &Expr,
    first: &Block,
    second: &Option<Block>,
) -> Result<Option<ElabFault>, Memory>
    requires table { AreModules source.now.table.now source.now.modules.now }
    requires scope { HasScope inside.old }
    ensures inside { OnOk result (inside.new ≡ inside.old) }
    ensures path { OnOk result (walk.new.path ≡ walk.old.path) }
    ensures here { OnOk result ((at : Place) → IsHere inside.old here.old walk.old.path at
        → IsHere inside.new here.new walk.new.path at) }
    ensures walked { IfOk result (λ g. (t : refused.Totals) (at : Place) (n : ℕ) (attrs : Attributes) (p : SpecPos)
        → let part = shown attrs p (kind.If condition.now first.now second.now) in
        IsSoFar source.now.modules.now walk.old.totals t → IsWellFormed part
        → IsHere inside.old here.old walk.old.path at → AreWalked source.now.modules.now t walk.new.totals
        (within.inner_walk is_valued source.now.modules.now (below source.now) part at n) g) }
{
    let holds = condition_value(walk.alloc, condition, inside)?;
    match chosen_by(holds, first, second) {
        None => Ok(None),
        Some(block) => Ok(walk_block(source, walk, inside, here, block)?),
    }
}

/// A block of an `if`: one node, and its items. An `if` alone in it is directly nested.
#[cycle(walk)]
fn walk_block(
    source: &Source<'_>,
    walk: &mut Walk,
    inside: &mut Inside,
    here: &mut Here,
    block: &Block,
) -> Result<Option<ElabFault>, Memory>
    requires table { AreModules source.now.table.now source.now.modules.now }
    requires scope { HasScope inside.old }
    ensures inside { OnOk result (inside.new ≡ inside.old) }
    ensures path { OnOk result (walk.new.path ≡ walk.old.path) }
    ensures here { OnOk result ((at : Place) → IsHere inside.old here.old walk.old.path at
        → IsHere inside.new here.new walk.new.path at) }
    ensures walked { IfOk result (λ g. (t : refused.Totals) (at : Place) (n : ℕ)
        → IsSoFar source.now.modules.now walk.old.totals t → IsBlock (block_of block.now)
        → IsHere inside.old here.old walk.old.path at → AreWalked source.now.modules.now t walk.new.totals
        (block_walk is_valued source.now.modules.now (below source.now) (block_of block.now) at n) g) }
{
    let own = begin_block(walk, block);
    if own.is_some() {
        return Ok(own);
    }
    match nested(block) {
        None => Ok(walk_inner(source, walk, inside, here, items_of(block))?),
        Some(part) => Ok(walk_one(source, walk, inside, here, part)?),
    }
}

/// The turns of a loop, while its condition holds, at most as many as it may have.
#[cycle(walk)]
fn walk_turns(
    source: &Source<'_>,
    walk: &mut Walk,
    inside: &mut Inside,
    here: &mut Here,
    head: &LoopHead,
    block: &Block,
) -> Result<Option<ElabFault>, Memory>
    requires { AreModules source.now.table.now source.now.modules.now }
    ensures inside { OnOk result (inside.new ≡ inside.old) }
    ensures path { OnOk result (walk.new.path ≡ walk.old.path) }
    ensures here { OnOk result (here.new ≡ here.old) }
    ensures walked { IfOk result (λ g. (t : refused.Totals) (at : Place) (paths : SpecConst → List ℕ)
        → IsSoFar source.now.modules.now walk.old.totals t → IsBlock (block_of block.now)
        → IsHere inside.old here.old walk.old.path at
        → AreWalked source.now.modules.now t walk.new.totals (loop_walk is_valued head.now at (λ c.
        turn_walk is_valued source.now.modules.now (below source.now) (block_of block.now)
        (turn_place at head.now.variable c) (paths c))) g) }
{
    let mut value = first_value(walk.alloc, head, inside)?;
    let mut left = turn_limit(walk.alloc, head, inside)?;
    while left > 0 {
        let Some(next) = next_value(walk.alloc, head, value, inside)? else {
            return Ok(None);
        };
        match walk_turn(source, walk, inside, &mut here.reached, head, value, block)? {
            None => {}
            Some(fault) => return Ok(Some(fault)),
        }
        value = next;
        left -= 1;
    }
    Ok(None)
}

/// One turn.
#[cycle(walk)]
fn walk_turn(
    source: &Source<'_>,
    walk: &mut Walk,
    inside: &mut Inside,
    reached: &mut Reached,
    head: &LoopHead,
    value: Const,
    block: &Block,
) -> Result<Option<ElabFault>, Memory>
    requires { AreModules source.now.table.now source.now.modules.now }
    ensures inside { OnOk result (inside.new ≡ inside.old) }
    ensures path { OnOk result (walk.new.path ≡ walk.old.path) }
    ensures reached { OnOk result (reached.new ≡ reached.old) }
    ensures walked { IfOk result (λ g. (t : refused.Totals) (at : Place) (text : List ℕ)
        → IsSoFar source.now.modules.now walk.old.totals t → IsBlock (block_of block.now)
        → IsWithin inside.old walk.old.path at → IsReached reached.old at at.earlier
        → AreWalked source.now.modules.now t walk.new.totals
        (turn_walk is_valued source.now.modules.now (below source.now) (block_of block.now)
        (turn_place at head.now.variable value) text) g) }
{
    let own = begin_block(walk, block);
    if own.is_some() {
        return Ok(own);
    }
    turns::enter(walk.alloc, head, value, inside, reached)?;
    let fault = walk_scope(source, walk, inside, items_of(block))?;
    turns::leave(walk.alloc, inside, reached);
    Ok(fault)
}

/// The items of a block of an `if` that makes a scope.
#[cycle(walk)]
fn walk_inner(
    source: &Source<'_>,
    walk: &mut Walk,
    inside: &mut Inside,
    here: &mut Here,
    all: &[Item],
) -> Result<Option<ElabFault>, Memory>
    requires { AreModules source.now.table.now source.now.modules.now }
    ensures inside { OnOk result (inside.new ≡ inside.old) }
    ensures path { OnOk result (walk.new.path ≡ walk.old.path) }
    ensures here { OnOk result (here.new ≡ here.old) }
    ensures walked { IfOk result (λ g. (t : refused.Totals) (at : Place) (text : List ℕ)
        → IsSoFar source.now.modules.now walk.old.totals t → AreWellFormed (tree.items all.now)
        → IsHere inside.old here.old walk.old.path at → AreWalked source.now.modules.now t walk.new.totals
        (items_walk is_valued source.now.modules.now (below source.now) (tree.items all.now)
        (block_place at text (tree.items all.now)) 1) g) }
{
    here.reached.hand_over(walk.alloc, &mut inside.around)?;
    let fault = walk_scope(source, walk, inside, all)?;
    here.reached.take_back(walk.alloc, &mut inside.around);
    Ok(fault)
}

/// The items of a block that makes a scope, behind what was handed over to it.
#[cycle(walk)]
fn walk_scope(
    source: &Source<'_>,
    walk: &mut Walk,
    inside: &mut Inside,
    all: &[Item],
) -> Result<Option<ElabFault>, Memory>
    requires { AreModules source.now.table.now source.now.modules.now }
    ensures inside { OnOk result (inside.new ≡ inside.old) }
    ensures path { OnOk result (walk.new.path ≡ walk.old.path) }
    ensures walked { IfOk result (λ g. (t : refused.Totals) (at : Place) (text : List ℕ)
        → IsSoFar source.now.modules.now walk.old.totals t → AreWellFormed (tree.items all.now)
        → IsHanded inside.old walk.old.path at → AreWalked source.now.modules.now t walk.new.totals
        (items_walk is_valued source.now.modules.now (below source.now) (tree.items all.now)
        (block_place at text (tree.items all.now)) 1) g) }
{
    let mut here = enter_scope(walk.alloc, all, inside)?;
    let fault = walk_items(source, walk, inside, &mut here, all)?;
    leave(inside);
    Ok(fault)
}

/// An instance, behind its own step. One in its own module was refused.
#[cycle(walk)]
fn walk_instance(
    source: &Source<'_>,
    walk: &mut Walk,
    inside: &Inside,
    instance: &Instance,
) -> Result<Option<ElabFault>, Memory>
    requires { AreModules source.now.table.now source.now.modules.now }
    ensures path { OnOk result (walk.new.path ≡ walk.old.path) }
    ensures walked { IfOk result (λ g. (t : refused.Totals) (at : Place)
        → IsSoFar source.now.modules.now walk.old.totals t → contains_name at.modules instance.now.definition ≡ false
        → IsWithin inside.now walk.old.path at → AreWalked source.now.modules.now t walk.new.totals
        (instance_steps is_valued source.now.modules.now (below source.now) at instance.now) g) }
{
    let Some(module) = source.table.find(source.modules, &instance.definition) else {
        return Ok(None);
    };
    if source.fuel == 0 {
        return Ok(None);
    }
    if is_bare(module, instance) {
        return Ok(None);
    }
    if walk.path.contains(&module.name) {
        return Ok(None);
    }
    walk.path.enter(walk.alloc, &module.name)?;
    let inner = Source {
        table: source.table,
        modules: source.modules,
        fuel: source.fuel - 1,
    };
    let fault = walk_module(&inner, walk, inside, module, instance)?;
    walk.path.pop();
    Ok(fault)
}

/// What an instance gives and joins, and its module.
#[cycle(walk)]
fn walk_module(
    source: &Source<'_>,
    walk: &mut Walk,
    inside: &Inside,
    module: &Module,
    instance: &Instance,
) -> Result<Option<ElabFault>, Memory>
    requires { AreModules source.now.table.now source.now.modules.now }
    ensures path { OnOk result (walk.new.path ≡ walk.old.path) }
    ensures walked { IfOk result (λ g. (t : refused.Totals) (at : Place) (text : List ℕ)
        → IsSoFar source.now.modules.now walk.old.totals t → IsModule module.now
        → walk.old.path ≡ at.modules ++ module.now.name ∷ [] → IsWithin inside.now at.modules at
        → let u = use_of (is_valued at) at.scopes instance.now in AreWalked source.now.modules.now t walk.new.totals
        (within.front_steps at module.now u text instance.now
        ++ within.opened_walk is_valued source.now.modules.now (below source.now)
        (module_place module.now u text at.modules) module.now u) g) }
{
    let mut used = enter_instance(walk.alloc, module, instance, inside)?;
    let fault = open(walk, module, instance, inside, &mut used)?;
    if fault.is_some() {
        return Ok(fault);
    }
    Ok(walk_items(
        source,
        walk,
        &mut used.inside,
        &mut used.here,
        module.items.as_slice(),
    )?)
}
