use crate::expr::Select;
use fv_text::{List, Pos, Text};
use std::marker::Model;

/// A target of an assignment, with its place (IEEE 1364-2005, section A.8.5). Contracts see it as a plain tree.
#[cycle(lval)]
#[derive(Drop)]
pub struct Lval {
    pub pos: Pos,
    pub kind: LvalKind,
}

#[cycle(lval)]
#[derive(Drop)]
pub enum LvalKind {
    /// A name, and the selects behind it.
    Name(Text, List<Select>),
    /// `{ first, second }`
    Concat(List<Lval>),
}

impl Model for Lval {
    ghost use Rattle.vl_tree.specs.Lval.{Lval, depth};
    ghost use Rattle.vl_tree.specs.LvalCode.{lval_code};

    ghost Value = { Lval };

    ghost coded = { lval_code };

    ghost use Rattle.vl_tree.specs.LvalView.{shown};

    ghost view = { λ l. shown l.pos l.kind };

    ghost size = { depth };

    ghost use Rattle.std.proofs.Common.{arith};
    ghost use Rattle.vl_tree.specs.LvalFalls.{falls};

    ghost size_decreases = { λ l h. Prim.omega (arith, falls l.pos l.kind) };
}
