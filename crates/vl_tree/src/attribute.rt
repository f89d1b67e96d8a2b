use crate::expr::Expr;
use fv_text::{List, Pos, Text};

/// `(* first = 1, second *)`, with the place of its bracket (IEEE 1364-2005, section 3.8).
#[derive(Drop)]
pub struct AttributeInstance {
    pub pos: Pos,
    pub attributes: List<Attribute>,
}

/// One name of an attribute instance, and its value where one is given.
#[derive(Drop)]
pub struct Attribute {
    pub pos: Pos,
    pub name: Text,
    pub value: Option<Expr>,
}
