//! Items in their places, the blocks of generate constructs, and the modules of instances.
ghost use Rattle.std.specs.Prelude.{◌≡◌, [], OnOk};
ghost use Rattle.vl_tree.specs.declared.item.ItemKind.TheVariants as kind;
ghost use Rattle.vl_tree.specs.Item as tree;
ghost use Rattle.vl_tree.specs.ItemView.{block as block_of, shown};
ghost use Rattle.vl_mean.specs.Declarations as declarations;
ghost use Rattle.vl_elab_spec.specs.Refused.{nowhere};
ghost use Rattle.vl_elab_const.specs.Numbers.{HaveNumbers};
ghost use Rattle.vl_elab_names.specs.Table.{AreModules};
ghost use Rattle.vl_elab_flatten.specs.Here.{around_of};
ghost use Rattle.vl_elab_flatten.specs.Ready as spec;
ghost use Rattle.vl_elab_flatten.specs.Ready.{IsReady, IsTurn, Writes, place_of};

use crate::blocks::{constructs, name_of, path_of, split_declared};
use crate::declared::write_ports;
use crate::here::{Here, leave_block, leave_turn, open_block, open_turn};
use crate::instances::{open_instance, write_joined};
use crate::modules::{Opened, written_ports};
use crate::paths::turn_path;
use crate::source::Source;
use crate::turns::{first_value, next_value};
use fv_text::{Memory, Text};
use vl_elab_check_item::MOST_TURNS;
use vl_elab_const::is_true_in;
use vl_elab_draft::{Draft, Path};
use vl_elab_emit::write_item;
use vl_elab_scope::blocks::{chosen, items_of, nested};
use vl_mean::Const;
use vl_size::Decl;
use vl_tree::{Block, Expr, Instance, Item, ItemKind, LoopHead, Module};

/// Writes the items of a scope, in order. `decls`: what they declare in order.
#[cycle(walk)]
pub(crate) fn write_items(
    source: &Source<'_>,
    all: &[Item],
    decls: &[Decl],
    here: &mut Here,
    draft: &mut Draft,
) -> Result<(), Memory>
    requires table { AreModules source.now.table.now source.now.modules.now }
    requires numbers { HaveNumbers here.old.numbers here.old.scopes }
    requires declared { decls.now ≡ declarations.declared (around_of here.old.scopes) (tree.items all.now) }
    requires ready { IsReady draft.old
        (spec.items_seen source.now.modules.now source.now.depth (tree.items all.now) (place_of here.old) 1) }
    ensures written { OnOk result (Writes draft.old
        (spec.items_seen source.now.modules.now source.now.depth (tree.items all.now) (place_of here.old) 1)
        draft.new) }
    ensures here { OnOk result (here.new ≡ here.old) }
{
    let mut rest = decls;
    let mut number = 1u64;
    for part in all {
        let (own, behind) = split_declared(part, rest);
        write_one(source, part, own, number, here, draft)?;
        rest = behind;
        number += constructs(part);
    }
    Ok(())
}

/// Writes an item, and what is in it. `number`: that of the next generate construct of the scope.
#[cycle(walk)]
fn write_one(
    source: &Source<'_>,
    part: &Item,
    decls: &[Decl],
    number: u64,
    here: &mut Here,
    draft: &mut Draft,
) -> Result<(), Memory>
    requires table { AreModules source.now.table.now source.now.modules.now }
    requires numbers { HaveNumbers here.old.numbers here.old.scopes }
    requires declared { decls.now ≡ declarations.declared_by (around_of here.old.scopes) part.now }
    requires ready { IsReady draft.old
        (spec.item_seen source.now.modules.now source.now.depth part.now (place_of here.old) number) }
    ensures written { OnOk result (Writes draft.old
        (spec.item_seen source.now.modules.now source.now.depth part.now (place_of here.old) number) draft.new) }
    ensures here { OnOk result (here.new ≡ here.old) }
{
    write_item(source.alloc, &here.path, decls, part, &here.scopes, draft)?;
    write_within(source, part, number, here, draft)
}

/// Writes what is in an item.
#[cycle(walk)]
fn write_within(
    source: &Source<'_>,
    part: &Item,
    number: u64,
    here: &mut Here,
    draft: &mut Draft,
) -> Result<(), Memory>
    requires table { AreModules source.now.table.now source.now.modules.now }
    requires numbers { HaveNumbers here.old.numbers here.old.scopes }
    requires ready { IsReady draft.old
        (spec.inner_seen source.now.modules.now source.now.depth part.now (place_of here.old) number) }
    ensures written { OnOk result (Writes draft.old
        (spec.inner_seen source.now.modules.now source.now.depth part.now (place_of here.old) number) draft.new) }
    ensures here { OnOk result (here.new ≡ here.old) }
{
    match &part.kind {
        ItemKind::Instance(instance) => Ok(write_instance(source, instance, here, draft)?),
        ItemKind::For(head, block) => Ok(write_turns(source, head, block, number, here, draft)?),
        ItemKind::If(condition, first, second) => Ok(write_if(
            source, condition, first, second, number, here, draft,
        )?),
        ItemKind::Declaration(_) | ItemKind::Integer(_) | ItemKind::Genvar(_) => Ok(()),
        ItemKind::Parameter(_, _) | ItemKind::Assign(_) | ItemKind::Always(_, _) => Ok(()),
        ItemKind::Initial(_) | ItemKind::Generate(_) => Ok(()),
    }
}

/// Writes the chosen block of an `if`.
#[cycle(walk)]
fn write_if(
    source: &Source<'_>,
    condition: &Expr,
    first: &Block,
    second: &Option<Block>,
    number: u64,
    here: &mut Here,
    draft: &mut Draft,
) -> Result<(), Memory>
    requires table { AreModules source.now.table.now source.now.modules.now }
    requires numbers { HaveNumbers here.old.numbers here.old.scopes }
    requires ready { IsReady draft.old (spec.inner_seen source.now.modules.now source.now.depth
        (shown [] nowhere (kind.If condition.now first.now second.now)) (place_of here.old) number) }
    ensures written { OnOk result (Writes draft.old (spec.inner_seen source.now.modules.now source.now.depth
        (shown [] nowhere (kind.If condition.now first.now second.now)) (place_of here.old) number) draft.new) }
    ensures here { OnOk result (here.new ≡ here.old) }
{
    let holds = is_true_in(source.alloc, condition, &here.numbers)?;
    match chosen(holds, first, second) {
        None => Ok(()),
        Some(block) => Ok(write_block(source, block, number, here, draft)?),
    }
}

/// Writes a block of an `if`. An `if` alone in it makes no scope (IEEE 1364-2005, section 12.4.2).
#[cycle(walk)]
fn write_block(
    source: &Source<'_>,
    block: &Block,
    number: u64,
    here: &mut Here,
    draft: &mut Draft,
) -> Result<(), Memory>
    requires table { AreModules source.now.table.now source.now.modules.now }
    requires numbers { HaveNumbers here.old.numbers here.old.scopes }
    requires ready { IsReady draft.old
        (spec.block_seen source.now.modules.now source.now.depth (block_of block.now) (place_of here.old) number) }
    ensures written { OnOk result (Writes draft.old
        (spec.block_seen source.now.modules.now source.now.depth (block_of block.now) (place_of here.old) number)
        draft.new) }
    ensures here { OnOk result (here.new ≡ here.old) }
{
    match nested(block) {
        None => {
            let path = path_of(source.alloc, block, number, here)?;
            let all = items_of(block);
            Ok(write_scope(source, all, path, here, draft)?)
        }
        Some(part) => Ok(write_one(source, part, &[], number, here, draft)?),
    }
}

/// Writes the turns of a loop, while its condition holds, at most 4,096 (IEEE 1364-2005, section 12.4.1; the limit is a
/// rule of this project).
#[cycle(walk)]
fn write_turns(
    source: &Source<'_>,
    head: &LoopHead,
    block: &Block,
    number: u64,
    here: &mut Here,
    draft: &mut Draft,
) -> Result<(), Memory>
    requires table { AreModules source.now.table.now source.now.modules.now }
    requires numbers { HaveNumbers here.old.numbers here.old.scopes }
    requires ready { IsReady draft.old
        (spec.turns_seen source.now.modules.now source.now.depth head.now (block_of block.now) (place_of here.old)
        number) }
    ensures written { OnOk result (Writes draft.old
        (spec.turns_seen source.now.modules.now source.now.depth head.now (block_of block.now) (place_of here.old)
        number) draft.new) }
    ensures here { OnOk result (here.new ≡ here.old) }
{
    let label = name_of(source.alloc, block, number, here)?;
    let mut value = first_value(source.alloc, head, &here.numbers)?;
    let mut left = MOST_TURNS;
    while left > 0 {
        let Some(next) = next_value(source.alloc, head, value, &mut here.numbers)? else {
            return Ok(());
        };
        write_turn(source, head, block, &label, value, here, draft)?;
        value = next;
        left -= 1;
    }
    Ok(())
}

/// Writes one turn.
#[cycle(walk)]
fn write_turn(
    source: &Source<'_>,
    head: &LoopHead,
    block: &Block,
    label: &Text,
    value: Const,
    here: &mut Here,
    draft: &mut Draft,
) -> Result<(), Memory>
    requires table { AreModules source.now.table.now source.now.modules.now }
    requires numbers { HaveNumbers here.old.numbers here.old.scopes }
    requires bounded { IsTurn value }
    requires ready { IsReady draft.old
        (spec.turn_seen source.now.modules.now source.now.depth head.now (block_of block.now) (place_of here.old)
        label.now value) }
    ensures written { OnOk result (Writes draft.old
        (spec.turn_seen source.now.modules.now source.now.depth head.now (block_of block.now) (place_of here.old)
        label.now value) draft.new) }
    ensures here { OnOk result (here.new ≡ here.old) }
{
    open_turn(source.alloc, &head.variable, value, here)?;
    let path = turn_path(source.alloc, &here.path, label, value)?;
    let all = items_of(block);
    write_scope(source, all, path, here, draft)?;
    leave_turn(here);
    Ok(())
}

/// Writes the items of a block that makes a scope under this path.
#[cycle(walk)]
fn write_scope(
    source: &Source<'_>,
    all: &[Item],
    path: Path,
    here: &mut Here,
    draft: &mut Draft,
) -> Result<(), Memory>
    requires table { AreModules source.now.table.now source.now.modules.now }
    requires numbers { HaveNumbers here.old.numbers here.old.scopes }
    requires ready { IsReady draft.old
        (spec.scope_seen source.now.modules.now source.now.depth (tree.items all.now) (place_of here.old) path) }
    ensures written { OnOk result (Writes draft.old
        (spec.scope_seen source.now.modules.now source.now.depth (tree.items all.now) (place_of here.old) path)
        draft.new) }
    ensures here { OnOk result (here.new ≡ here.old) }
{
    let opened = open_block(source.alloc, all, path, here)?;
    write_items(source, all, opened.1.as_slice(), here, draft)?;
    leave_block(opened.0, here);
    Ok(())
}

/// Writes an instance: what it joins to the ports of its module, and then the module in it (IEEE 1364-2005, section
/// 12.1.2).
#[cycle(walk)]
fn write_instance(
    source: &Source<'_>,
    instance: &Instance,
    here: &Here,
    draft: &mut Draft,
) -> Result<(), Memory>
    requires table { AreModules source.now.table.now source.now.modules.now }
    requires numbers { HaveNumbers here.now.numbers here.now.scopes }
    requires ready { IsReady draft.old
        (spec.instance_seen source.now.modules.now source.now.depth instance.now (place_of here.now)) }
    ensures { OnOk result (Writes draft.old
        (spec.instance_seen source.now.modules.now source.now.depth instance.now (place_of here.now)) draft.new) }
{
    let Some(module) = source.table.find(source.modules, &instance.definition) else {
        return Ok(());
    };
    if source.depth == 0 {
        return Ok(());
    }
    let opened = open_instance(source.alloc, module, instance, here)?;
    write_joined(
        source.alloc,
        module,
        instance,
        &here.scopes,
        &opened.here.scopes,
        draft,
    )?;
    let inner = Source {
        alloc: source.alloc,
        table: source.table,
        modules: source.modules,
        depth: source.depth - 1,
    };
    write_opened(&inner, module, opened, draft)
}

/// Writes the ports and the items of a module that is opened so.
#[cycle(walk)]
pub(crate) fn write_opened(
    source: &Source<'_>,
    module: &Module,
    opened: Opened,
    draft: &mut Draft,
) -> Result<(), Memory>
    requires table { AreModules source.now.table.now source.now.modules.now }
    requires numbers { HaveNumbers opened.here.numbers opened.here.scopes }
    requires declared { opened.decls
        ≡ declarations.declared (around_of opened.here.scopes) (tree.items module.now.items) }
    requires ready { IsReady draft.old
        (spec.opened_seen source.now.modules.now source.now.depth module.now opened) }
    ensures { OnOk result (Writes draft.old
        (spec.opened_seen source.now.modules.now source.now.depth module.now opened) draft.new) }
{
    let mut used = opened;
    write_ports(
        source.alloc,
        written_ports(&module.ports),
        &used.here.path,
        used.ports.as_slice(),
        &used.here.scopes,
        draft,
    )?;
    write_items(
        source,
        module.items.as_slice(),
        used.decls.as_slice(),
        &mut used.here,
        draft,
    )
}
