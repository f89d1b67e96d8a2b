use crate::expr::Expr;
use crate::lval::Lval;
use fv_text::{List, Pos, Text};

/// `target = value` in a continuous assignment (IEEE 1364-2005, section 6.1).
#[derive(Drop)]
pub struct Assignment {
    pub target: Lval,
    pub value: Expr,
}

/// What an `always` waits for, with the place of the first token behind the `@` (IEEE 1364-2005, section 9.7).
#[derive(Drop)]
pub struct Event {
    pub pos: Pos,
    pub kind: EventKind,
}

/// Any change, in four spellings, or the clock's edge.
#[derive(Drop)]
pub enum EventKind {
    /// `*`
    Bare,
    /// `(` `*` `)`
    Spaced,
    /// `(*` `)`
    OpenJoined,
    /// `(` `*)`
    CloseJoined,
    /// `(posedge name)`
    Posedge(Text),
}

/// `.port(value)`, with the place of its dot (IEEE 1364-2005, sections 12.2.2 and 12.3.6).
#[derive(Drop)]
pub struct Connection {
    pub pos: Pos,
    pub port: Text,
    pub value: Option<Expr>,
}

/// `definition #(overrides) name (connections);` (IEEE 1364-2005, section 12.1.2).
#[derive(Drop)]
pub struct Instance {
    pub definition: Text,
    /// None where no `#` stands there.
    pub overrides: Option<List<Connection>>,
    pub name: Text,
    pub connections: List<Connection>,
}

/// `(variable = start; condition; next_variable = next)` (IEEE 1364-2005, section 12.4.1).
#[derive(Drop)]
pub struct LoopHead {
    pub variable: Text,
    pub start: Expr,
    pub condition: Expr,
    pub next_variable: Text,
    pub next: Expr,
}
