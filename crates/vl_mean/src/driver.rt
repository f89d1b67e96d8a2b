use crate::const_number::Const;
use fv_text::Pos;
use vl_tree::{Expr, Lval, Stmt};

/// What assigns names in a design without hierarchy: the place of the item that it comes from.
#[derive(Drop)]
pub struct Driver {
    pub pos: Pos,
    pub what: DriverKind,
}

#[derive(Drop)]
pub enum DriverKind {
    /// A continuous assignment or a port connection (IEEE 1364-2005, sections 6.1 and 12.3).
    Assign(Lval, Expr),
    /// A block that stands for a circuit without memory (section 9.7.5).
    Comb(Stmt),
    /// A block that acts at the clock's edge (section 9.7.2).
    Clocked(Stmt),
}

/// A target with its value at first.
#[derive(Drop)]
pub struct Start {
    pub target: Lval,
    pub value: Const,
}
