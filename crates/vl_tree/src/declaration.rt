use crate::attribute::AttributeInstance;
use crate::expr::Expr;
use fv_text::{List, Pos, Text};

/// `[left : right]` in a declaration, with the place of its bracket (IEEE 1364-2005, sections 3.3 and 3.9).
#[derive(Drop)]
pub struct Range {
    pub pos: Pos,
    pub left: Expr,
    pub right: Expr,
}

/// What stands before the name of a vector: `signed`, and a range. Without a range it is a scalar.
#[derive(Drop)]
pub struct Shape {
    pub signed: bool,
    pub range: Option<Range>,
}

#[derive(Debug, Clone, Copy, PartialEq, Eq)]
pub enum NetKind {
    Wire,
    Reg,
}

#[derive(Debug, Clone, Copy, PartialEq, Eq)]
pub enum Direction {
    Input,
    Output,
}

#[derive(Debug, Clone, Copy, PartialEq, Eq)]
pub enum ParameterKind {
    Parameter,
    Localparam,
}

/// A name that is declared: with the range of its words where it is a memory, and its value where one is given.
#[derive(Drop)]
pub struct DeclaredName {
    pub pos: Pos,
    pub name: Text,
    pub words: Option<Range>,
    pub value: Option<Expr>,
}

/// `wire signed [7:0] first, second = 1;` or the same with `reg` (IEEE 1364-2005, section 3.2).
#[derive(Drop)]
pub struct Declaration {
    pub net: NetKind,
    pub shape: Shape,
    pub names: List<DeclaredName>,
}

/// A parameter with its value (IEEE 1364-2005, section 3.11). Its place is that of its first token, behind the keyword.
#[derive(Drop)]
pub struct Parameter {
    pub pos: Pos,
    pub shape: Shape,
    pub name: Text,
    pub value: Expr,
}

/// A parameter in a module's head: whether `parameter` stands before it, as it does before the first.
#[derive(Drop)]
pub struct HeaderParameter {
    pub keyword: bool,
    pub parameter: Parameter,
}

/// A port of a module (IEEE 1364-2005, section 12.3). Attributes before it aren't of its place.
#[derive(Drop)]
pub struct Port {
    pub pos: Pos,
    pub kind: PortKind,
}

#[derive(Drop)]
pub enum PortKind {
    Full(FullPort),
    /// A name that takes the direction and the shape of the port before it, and its value where one is given.
    Short(Text, Option<Expr>),
}

#[derive(Drop)]
pub struct FullPort {
    pub attributes: List<AttributeInstance>,
    pub direction: Direction,
    pub net: Option<NetKind>,
    pub shape: Shape,
    pub name: Text,
    /// The place of the name. One that is written short stands at its name itself.
    pub name_pos: Pos,
    pub value: Option<Expr>,
}
