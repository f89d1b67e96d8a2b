use crate::attribute::AttributeInstance;
use crate::expr::Expr;
use crate::lval::Lval;
use fv_text::{List, Pos, Text};
use std::marker::Model;

/// A statement with its place; attributes before it aren't of its place (IEEE 1364-2005, section A.6.4). Contracts see
/// it as a plain tree.
#[cycle(stmt)]
#[derive(Drop)]
pub struct Stmt {
    pub attributes: List<AttributeInstance>,
    pub pos: Pos,
    pub kind: StmtKind,
}

/// One variant for each alternative of the grammar.
#[cycle(stmt)]
#[derive(Drop)]
pub enum StmtKind {
    /// `begin : label .. end`
    Begin(Option<Text>, List<Stmt>),
    /// `if (condition) first else second`
    If(Expr, Box<Stmt>, Option<Box<Stmt>>),
    /// `case (expr) .. endcase`
    Case(CaseKind, Expr, List<Arm>),
    Assign(Lval, AssignKind, Expr),
    /// `assume (expr);`
    Assume(Expr),
    /// `;`
    Empty,
}

/// An arm of a case, with the place of its first token.
#[cycle(stmt)]
#[derive(Drop)]
pub enum Arm {
    /// `first, second : stmt`
    Labels(Pos, List<Expr>, Box<Stmt>),
    /// `default : stmt`, and whether the colon is there.
    Default(Pos, bool, Box<Stmt>),
}

#[derive(Debug, Clone, Copy, PartialEq, Eq)]
pub enum CaseKind {
    Case,
    Casez,
}

#[derive(Debug, Clone, Copy, PartialEq, Eq)]
pub enum AssignKind {
    /// `=`
    Blocking,
    /// `<=`
    Nonblocking,
}

impl Model for Stmt {
    ghost use Rattle.vl_tree.specs.Stmt.{Stmt, depth};
    ghost use Rattle.vl_tree.specs.StmtCode.{stmt_code};

    ghost Value = { Stmt };

    ghost coded = { stmt_code };

    ghost use Rattle.vl_tree.specs.StmtView.{shown};

    ghost view = { λ s. shown s.attributes s.pos s.kind };

    ghost size = { depth };

    ghost use Rattle.std.proofs.Common.{arith};
    ghost use Rattle.vl_tree.specs.StmtFalls.{falls};

    ghost size_decreases = { λ s h. Prim.omega (arith, falls s.attributes s.pos s.kind) };
}
