//! Continuous assignments, and blocks of statements.
ghost use Rattle.std.specs.Prelude.{◌≡◌, ◌∷◌, [], OnOk};
ghost use Rattle.vl_tree.specs.Stmt.{stmts};
ghost use Rattle.vl_mean.specs.Parts as parts;
ghost use Rattle.vl_elab_emit.specs.Behind as spec;

use crate::starting::write_start;
use fv_text::{Memory, Pos};
use std::alloc::Global;
use vl_elab_draft::{Draft, Scopes, write_clocked, write_combinational, write_equation};
use vl_tree::{Assignment, EventKind, Stmt, StmtKind};

/// Writes continuous assignments, in order (IEEE 1364-2005, section 6.1.2). The place is that of their item.
pub(crate) fn write_assignments(
    alloc: Global,
    pos: Pos,
    all: &[Assignment],
    scopes: &Scopes,
    draft: &mut Draft,
) -> Result<(), Memory>
    ensures { OnOk result
        (spec.StandBehind draft.old (spec.placed_at pos (parts.assignments scopes.now all.now)) draft.new) }
{
    for assignment in all {
        write_equation(
            alloc,
            pos,
            &assignment.target,
            scopes,
            &assignment.value,
            scopes,
            draft,
        )?;
    }
    Ok(())
}

/// Writes an `always` block: one that waits for the clock's edge acts there, and each other one stands for a circuit
/// without memory (IEEE 1364-2005, sections 9.7.2 and 9.7.5). The place is that of its item.
pub fn write_block(
    alloc: Global,
    pos: Pos,
    event: &EventKind,
    stmt: &Stmt,
    scopes: &Scopes,
    draft: &mut Draft,
) -> Result<(), Memory>
    ensures { OnOk result (spec.StandBehind draft.old
        (spec.placed_at pos (parts.block_part scopes.now event.now stmt.now ∷ [])) draft.new) }
{
    match event {
        EventKind::Posedge(_) => write_clocked(alloc, pos, stmt, scopes, draft),
        EventKind::Bare | EventKind::Spaced | EventKind::OpenJoined | EventKind::CloseJoined =>
            write_combinational(alloc, pos, stmt, scopes, draft),
    }
}

/// Writes the assignments of an `initial` block, in order, as values at first (IEEE 1364-2005, section 9.9.1). Other
/// statements in it, which are refused, are left out.
#[cycle(initial)]
#[tactic(auto, using(vl_tree::specs::StmtFalls::parts_fall, crate::proofs::Standing::nothing_more))]
pub(crate) fn write_initial(
    alloc: Global,
    stmt: &Stmt,
    scopes: &Scopes,
    draft: &mut Draft,
) -> Result<(), Memory>
    requires { spec.MayStandBehind draft.old (parts.initial_parts scopes.now stmt.now) }
    ensures { OnOk result
        (spec.StandBehind draft.old (spec.unplaced (parts.initial_parts scopes.now stmt.now)) draft.new) }
{
    match &stmt.kind {
        StmtKind::Begin(_, all) => write_all_initial(alloc, all.as_slice(), scopes, draft),
        StmtKind::Assign(target, _, value) => write_start(alloc, target, value, scopes, draft),
        StmtKind::If(_, _, None) | StmtKind::If(_, _, Some(_)) => Ok(()),
        StmtKind::Case(_, _, _) | StmtKind::Assume(_) | StmtKind::Empty => Ok(()),
    }
}

#[cycle(initial)]
#[tactic(auto, using(vl_tree::specs::StmtFalls::parts_fall))]
fn write_all_initial(
    alloc: Global,
    all: &[Stmt],
    scopes: &Scopes,
    draft: &mut Draft,
) -> Result<(), Memory>
    requires { spec.MayStandBehind draft.old (parts.all_initial_parts scopes.now (stmts all.now)) }
    ensures { OnOk result (spec.StandBehind draft.old
        (spec.unplaced (parts.all_initial_parts scopes.now (stmts all.now))) draft.new) }
{
    for stmt in all {
        write_initial(alloc, stmt, scopes, draft)?;
    }
    Ok(())
}
