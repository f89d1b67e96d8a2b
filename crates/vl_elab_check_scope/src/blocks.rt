//! Continuous assignments, and blocks that act.
ghost use Rattle.std.specs.Prelude.{◌≡◌, ◌++◌, List, IfOk};
ghost use Rattle.vl_elab_spec.specs.Items as items;
ghost use Rattle.vl_elab_spec.specs.Meanings as meanings;
ghost use Rattle.vl_elab_spec.specs.Refused.{lowest};
ghost use Rattle.vl_elab_spec.specs.Statements.{initial_refusals, stmt_refusals};
ghost use Rattle.vl_elab_scope.specs.Alike.{Alike};

use fv_text::Memory;
use std::alloc::Global;
use vl_elab_check_expr::first_of;
use vl_elab_check_item::{assignments_fault, event_fault};
use vl_elab_check_stmt::{initial_fault, stmt_fault};
use vl_elab_scope::Names;
use vl_elab_spec::ElabFault;
use vl_tree::{Assignment, Event, Stmt};

/// Continuous assignments, over what names mean.
pub fn assign_fault(
    alloc: Global,
    all: &[Assignment],
    names: &Names,
) -> Result<Option<ElabFault>, Memory>
    ensures { IfOk result (λ g. (known : List meanings.Names) → Alike names.now known
        → g ≡ lowest (items.assignments_refusals known all.now)) }
{
    assignments_fault(alloc, all, names)
}

#[tactic(auto, using(vl_elab_check_expr::proofs::Lowest::lowest_parts))]
fn event_and_stmt(
    alloc: Global,
    event: &Event,
    stmt: &Stmt,
    names: &Names,
) -> Result<Option<ElabFault>, Memory>
    ensures { IfOk result (λ g. g ≡ lowest (items.event_refusals names.now event.now.pos event.now.kind
        ++ stmt_refusals names.now stmt.now)) }
{
    let edge = event_fault(alloc, event, names)?;
    let inner = stmt_fault(alloc, stmt, names)?;
    Ok(first_of(edge, inner))
}

/// A block with the event that it waits for.
pub fn always_fault(
    alloc: Global,
    event: &Event,
    stmt: &Stmt,
    names: &Names,
) -> Result<Option<ElabFault>, Memory>
    ensures { IfOk result (λ g. (known : List meanings.Names) → Alike names.now known
        → g ≡ lowest (items.event_refusals known event.now.pos event.now.kind ++ stmt_refusals known stmt.now)) }
{
    event_and_stmt(alloc, event, stmt, names)
}

/// A block that acts at first.
pub fn initial_block_fault(
    alloc: Global,
    stmt: &Stmt,
    names: &Names,
) -> Result<Option<ElabFault>, Memory>
    ensures { IfOk result (λ g. (known : List meanings.Names) → Alike names.now known
        → g ≡ lowest (initial_refusals known stmt.now)) }
{
    initial_fault(alloc, stmt, names)
}
