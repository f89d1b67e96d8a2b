//! Statements (IEEE 1364-2005, clause 9).
#![tactic(auto, using(vl_tree::specs::StmtFalls::parts_fall, wn_net::proofs::Laws::additions))]

ghost use Rattle.std.specs.Prelude.{IfOk, OnOk};
ghost use Rattle.vl_tree.specs.Stmt as s;
ghost use Rattle.vl_tree.specs.StmtView.{arms, with_arm};
ghost use Rattle.vl_mean.specs.FlatLaw.{AreBlocks, IsBlock};
ghost use Rattle.wn_net.specs.Net.{IsNodeOf};
ghost use Rattle.vl_lower_assign.specs.Slots.{IsPath};
ghost use Rattle.vl_lower_assign.specs.Frames.{IsFrame, cells_of};
ghost use Rattle.vl_lower_stmt.specs.StepsArms.{AreLedTo, ArmsDone, case_test};
ghost use Rattle.vl_lower_stmt.specs.Executes.{Executes, ExecutesAll, ExecutesOther};
ghost use Rattle.vl_lower_stmt.specs.Layout.{IsLayout};
ghost use Rattle.vl_lower_stmt.specs.ExecuteArms.{DoesArm};

use crate::assignment::assign;
use crate::assumption::assume;
use crate::context::case_word;
use crate::labels::{CaseWord, some_matches};
use crate::layout::Layout;
use crate::paths::{path_if, two_paths};
use fv_text::Memory;
use vl_lower_assign::{Frame, path_unless, path_where};
use vl_tree::{Arm, Stmt, StmtKind};
use wn_net::{Net, NodeId};

/// Executes a statement where the path is taken: in each cycle the frame comes from what it stands for to what the
/// statement leaves (IEEE 1364-2005, clause 9).
#[cycle(statement)]
pub fn execute(
    net: &mut Net,
    layout: Layout<'_>,
    frame: &mut Frame,
    path: Option<NodeId>,
    stmt: &Stmt,
) -> Result<(), Memory>
    requires layout { IsLayout layout.decls.now layout.places.now }
    requires frame { IsFrame net.old layout.decls.now (cells_of frame.old) }
    requires path { IsPath net.old path }
    requires block { IsBlock layout.decls.now stmt.now }
    ensures { OnOk result (Executes layout.entry.decls.now net.old net.new (cells_of frame.old) (cells_of frame.new)
        path stmt.now) }
{
    match &stmt.kind {
        StmtKind::Begin(_, all) => Ok(sequence(net, layout, frame, path, all.as_slice())?),
        StmtKind::If(condition, first, None) => {
            let inner = path_if(net, layout, frame.now.as_slice(), path, condition)?;
            Ok(execute(net, layout, frame, Some(inner), first)?)
        }
        StmtKind::If(condition, first, Some(second)) => {
            let paths = two_paths(net, layout, frame.now.as_slice(), path, condition)?;
            execute(net, layout, frame, Some(paths.taken), first)?;
            Ok(execute(net, layout, frame, Some(paths.other), second)?)
        }
        StmtKind::Case(kind, expr, arms) => {
            let cells = frame.now.as_slice();
            let word = case_word(net, layout, cells, *kind, expr, arms.as_slice())?;
            let rest = in_order(net, layout, frame, path, word, arms.as_slice())?;
            Ok(otherwise(net, layout, frame, rest, arms.as_slice())?)
        }
        StmtKind::Assign(target, kind, expr) => {
            Ok(assign(net, layout, frame, path, target, *kind, expr)?)
        }
        StmtKind::Assume(expr) => Ok(assume(net, layout, frame, path, expr)?),
        StmtKind::Empty => Ok(()),
    }
}

/// One statement after the other (section 9.8.1).
#[cycle(statement)]
fn sequence(
    net: &mut Net,
    layout: Layout<'_>,
    frame: &mut Frame,
    path: Option<NodeId>,
    all: &[Stmt],
) -> Result<(), Memory>
    requires layout { IsLayout layout.decls.now layout.places.now }
    requires frame { IsFrame net.old layout.decls.now (cells_of frame.old) }
    requires path { IsPath net.old path }
    requires each { AreBlocks layout.decls.now (s.stmts all.now) }
    ensures { OnOk result (ExecutesAll layout.entry.decls.now net.old net.new (cells_of frame.old)
        (cells_of frame.new) path (s.stmts all.now)) }
{
    for stmt in all {
        execute(net, layout, frame, path, stmt)?;
    }
    Ok(())
}

/// Each arm where none before it matches; the path on which none does.
#[cycle(statement)]
fn in_order(
    net: &mut Net,
    layout: Layout<'_>,
    frame: &mut Frame,
    path: Option<NodeId>,
    word: CaseWord,
    all: &[Arm],
) -> Result<Option<NodeId>, Memory>
    requires layout { IsLayout layout.decls.now layout.places.now }
    requires frame { IsFrame net.old layout.decls.now (cells_of frame.old) }
    requires path { IsPath net.old path }
    requires word { IsNodeOf net.old word.context.width word.node }
    requires arms { AreLedTo layout.decls.now (arms all.now) }
    ensures { IfOk result (λ rest. ArmsDone layout.entry.decls.now net.old (cells_of frame.old) path
        (case_test layout.entry.decls.now net.old word.kind word.context.width word.context.signed word.node)
        net.new (cells_of frame.new) rest all.now) }
{
    let mut rest = path;
    for arm in all {
        rest = one_arm(net, layout, frame, rest, word, arm)?;
    }
    Ok(rest)
}

/// An arm, on the path on which none before it matches; the path on which it doesn't either.
#[cycle(statement)]
fn one_arm(
    net: &mut Net,
    layout: Layout<'_>,
    frame: &mut Frame,
    path: Option<NodeId>,
    word: CaseWord,
    arm: &Arm,
) -> Result<Option<NodeId>, Memory>
    requires layout { IsLayout layout.decls.now layout.places.now }
    requires frame { IsFrame net.old layout.decls.now (cells_of frame.old) }
    requires path { IsPath net.old path }
    requires word { IsNodeOf net.old word.context.width word.node }
    requires arm { AreLedTo layout.decls.now (with_arm arm.now s.no_arms) }
    ensures { IfOk result (λ other. DoesArm layout.entry.decls.now net.old net.new (cells_of frame.old)
        (cells_of frame.new) path other word.kind word.context.width word.context.signed word.node arm.now) }
{
    match arm {
        Arm::Labels(_, labels, stmt) => {
            let hit = some_matches(net, layout, frame.now.as_slice(), word, labels.as_slice())?;
            let taken = path_where(net, path, hit)?;
            let other = path_unless(net, path, hit)?;
            execute(net, layout, frame, Some(taken), stmt)?;
            Ok(Some(other))
        }
        Arm::Default(_, _, _) => Ok(path),
    }
}

/// The default arm, wherever it stands.
#[cycle(statement)]
fn otherwise(
    net: &mut Net,
    layout: Layout<'_>,
    frame: &mut Frame,
    path: Option<NodeId>,
    all: &[Arm],
) -> Result<(), Memory>
    requires layout { IsLayout layout.decls.now layout.places.now }
    requires frame { IsFrame net.old layout.decls.now (cells_of frame.old) }
    requires path { IsPath net.old path }
    requires arms { AreLedTo layout.decls.now (arms all.now) }
    ensures { OnOk result (ExecutesOther layout.entry.decls.now net.old net.new (cells_of frame.old)
        (cells_of frame.new) path (arms all.now)) }
{
    for arm in all {
        match arm {
            Arm::Labels(_, _, _) => {}
            Arm::Default(_, _, stmt) => return Ok(execute(net, layout, frame, path, stmt)?),
        }
    }
    Ok(())
}
