//! The trees of Verilog sources, and what they spell.
#![tactic(auto)]

mod attribute;
mod declaration;
mod examples;
mod expr;
mod item;
mod law;
mod lval;
mod operator;
mod part;
mod shared;
mod source;
mod stmt;

pub use attribute::{Attribute, AttributeInstance};
pub use declaration::{
    Declaration, DeclaredName, Direction, FullPort, HeaderParameter, NetKind, Parameter,
    ParameterKind, Port, PortKind, Range, Shape,
};
pub use examples::{
    expressions_have_their_texts, modules_have_their_texts, regions_are_balanced,
    statements_have_their_texts,
};
pub use expr::{Expr, ExprKind, Select};
pub use item::{Block, Item, ItemKind, RegionMark};
pub use law::{each_token_has_its_open_constructs, spelled_tokens_have_the_kinds};
pub use lval::{Lval, LvalKind};
pub use operator::{BinaryOperator, Cast, UnaryOperator};
pub use part::{Assignment, Connection, Event, EventKind, Instance, LoopHead};
pub use source::{Module, Source};
pub use stmt::{Arm, AssignKind, CaseKind, Stmt, StmtKind};
