ghost use Rattle.std.specs.Prelude.{◌≡◌, [], IfOk, if◌then◌else◌};
ghost use Rattle.fv_bit_sets.specs.Cells.{has};
ghost use Rattle.vl_flow_spec.specs.Assigned as spec;
ghost use Rattle.vl_flow_order.specs.Names.{AreNames};
ghost use Rattle.vl_tree.specs.Stmt as s;
ghost use Rattle.vl_tree.specs.StmtView.{arms, with_arm};
ghost use Rattle.vl_flow_effects.specs.Assigning.{AreAssignedIn, IsNothing, is_kind};

use crate::masks::push;
use fv_bit_sets::Bits;
use fv_text::Memory;
use std::alloc::Global;
use vl_flow_order::{target_names, union_of};
use vl_size::Decls;
use vl_tree::{Arm, AssignKind, Lval, Stmt, StmtKind};

/// The names that a block assigns, whatever its assignments reach of them: bit 0 of the cells with the numbers of the
/// names' places.
#[derive(Debug, Drop)]
pub struct Assigned {
    pub blocking: Bits,
    pub nonblocking: Bits,
}

impl Assigned {
    /// Of what isn't a block.
    pub(crate) fn none(alloc: Global) -> Assigned
        ensures { IsNothing result }
    {
        Assigned {
            blocking: Bits::none(alloc),
            nonblocking: Bits::none(alloc),
        }
    }

    /// Of a block. Time is about linear in it.
    pub(crate) fn of(alloc: Global, stmt: &Stmt, decls: &Decls) -> Result<Assigned, Memory>
        ensures { IfOk result (AreAssignedIn decls.now stmt.now) }
    {
        let blocking = stmt_names(alloc, stmt, AssignKind::Blocking, decls)?;
        let nonblocking = stmt_names(alloc, stmt, AssignKind::Nonblocking, decls)?;
        Ok(Assigned {
            blocking,
            nonblocking,
        })
    }
}

/// Whether an assignment is of the kind that counts.
fn is_counted(counted: AssignKind, kind: AssignKind) -> bool
    ensures { result ≡ is_kind counted kind }
{
    match counted {
        AssignKind::Blocking => match kind {
            AssignKind::Blocking => true,
            AssignKind::Nonblocking => false,
        },
        AssignKind::Nonblocking => match kind {
            AssignKind::Blocking => false,
            AssignKind::Nonblocking => true,
        },
    }
}

/// The target's names, where they count.
fn names_if(alloc: Global, target: &Lval, counts: bool, decls: &Decls) -> Result<Bits, Memory>
    ensures { IfOk result (λ names. AreNames decls.now (if counts then spec.target_names target.now else [])
        (has names)) }
{
    if counts {
        return Ok(target_names(alloc, target, decls)?);
    }
    Ok(Bits::none(alloc))
}

/// The names that assignments of a kind in a statement have as targets.
#[cycle(named)]
#[tactic(auto, using(vl_tree::specs::StmtFalls::parts_fall))]
fn stmt_names(
    alloc: Global,
    stmt: &Stmt,
    counted: AssignKind,
    decls: &Decls,
) -> Result<Bits, Memory>
    ensures { IfOk result (λ names. AreNames decls.now (spec.assigned_names (is_kind counted) stmt.now) (has names)) }
{
    match &stmt.kind {
        StmtKind::Begin(_, all) => Ok(sequence_names(alloc, all.as_slice(), counted, decls)?),
        StmtKind::If(_, first, None) => Ok(stmt_names(alloc, first, counted, decls)?),
        StmtKind::If(_, first, Some(second)) => {
            let first = stmt_names(alloc, first, counted, decls)?;
            let second = stmt_names(alloc, second, counted, decls)?;
            Ok(first.with(&second)?)
        }
        StmtKind::Case(_, _, arms) => Ok(arms_names(alloc, arms.as_slice(), counted, decls)?),
        StmtKind::Assign(target, kind, _) => {
            Ok(names_if(alloc, target, is_counted(counted, *kind), decls)?)
        }
        StmtKind::Assume(_) => Ok(Bits::none(alloc)),
        StmtKind::Empty => Ok(Bits::none(alloc)),
    }
}

#[cycle(named)]
fn sequence_names(
    alloc: Global,
    all: &[Stmt],
    counted: AssignKind,
    decls: &Decls,
) -> Result<Bits, Memory>
    ensures { IfOk result (λ names. AreNames decls.now
        (spec.all_assigned_names (is_kind counted) (s.stmts all.now)) (has names)) }
{
    let mut sets = Vec::new(alloc);
    for part in all {
        push(&mut sets, stmt_names(alloc, part, counted, decls)?)?;
    }
    Ok(union_of(alloc, sets.as_slice())?)
}

#[cycle(named)]
fn arms_names(
    alloc: Global,
    all: &[Arm],
    counted: AssignKind,
    decls: &Decls,
) -> Result<Bits, Memory>
    ensures { IfOk result (λ names. AreNames decls.now
        (spec.arms_assigned_names (is_kind counted) (arms all.now)) (has names)) }
{
    let mut sets = Vec::new(alloc);
    for arm in all {
        push(&mut sets, arm_names(alloc, arm, counted, decls)?)?;
    }
    Ok(union_of(alloc, sets.as_slice())?)
}

#[cycle(named)]
fn arm_names(alloc: Global, arm: &Arm, counted: AssignKind, decls: &Decls) -> Result<Bits, Memory>
    ensures { IfOk result (λ names. AreNames decls.now
        (spec.arms_assigned_names (is_kind counted) (with_arm arm.now s.no_arms)) (has names)) }
{
    match arm {
        Arm::Labels(_, _, stmt) => Ok(stmt_names(alloc, stmt, counted, decls)?),
        Arm::Default(_, _, stmt) => Ok(stmt_names(alloc, stmt, counted, decls)?),
    }
}
