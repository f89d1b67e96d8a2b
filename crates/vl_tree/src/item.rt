use crate::attribute::AttributeInstance;
use crate::declaration::{Declaration, DeclaredName, Parameter, ParameterKind};
use crate::expr::Expr;
use crate::part::{Assignment, Event, Instance, LoopHead};
use crate::stmt::Stmt;
use fv_text::{List, Pos, Text};
use std::marker::Model;

/// An item of a module with its place; attributes before it aren't of its place (IEEE 1364-2005, section A.1.4).
/// Contracts see it as a plain tree.
#[cycle(item)]
#[derive(Drop)]
pub struct Item {
    pub attributes: List<AttributeInstance>,
    pub pos: Pos,
    pub kind: ItemKind,
}

/// One variant for each alternative of the grammar.
#[cycle(item)]
#[derive(Drop)]
pub enum ItemKind {
    Declaration(Declaration),
    /// `integer first, second;`
    Integer(List<DeclaredName>),
    /// `genvar first, second;`
    Genvar(List<Text>),
    /// `localparam first = 1, second = 2;`
    Parameter(ParameterKind, List<Parameter>),
    /// `assign first = 1, second = 2;`
    Assign(List<Assignment>),
    /// `always @event stmt`
    Always(Event, Stmt),
    /// `initial stmt`, a blocking assignment or a block of them without label
    Initial(Stmt),
    Instance(Instance),
    /// `generate`, or `endgenerate`: a region is two marks among the items around it, so that regions in one another
    /// make no tree deeper. In front of `endgenerate` are no attributes.
    Generate(RegionMark),
    /// `for (head) block`
    For(LoopHead, Block),
    /// `if (condition) first else second`
    If(Expr, Block, Option<Block>),
}

/// An end of a region of generate constructs (IEEE 1364-2005, section 12.4).
#[derive(Debug, Clone, Copy, PartialEq, Eq)]
pub enum RegionMark {
    /// `generate`
    Open,
    /// `endgenerate`
    Close,
}

/// A block of a generate construct.
#[cycle(item)]
#[derive(Drop)]
pub enum Block {
    /// `begin : label .. end`, with the place of the `begin`
    Begin(Pos, Option<Text>, List<Item>),
    /// `generate .. endgenerate`, with the place of the `generate`; regions in it are marks
    Region(Pos, List<Item>),
    /// Any other item, without attributes
    Single(Box<Item>),
}

impl Model for Item {
    ghost use Rattle.vl_tree.specs.Item.{Item, depth};
    ghost use Rattle.vl_tree.specs.ItemCode.{item_code};

    ghost Value = { Item };

    ghost coded = { item_code };

    ghost use Rattle.vl_tree.specs.ItemView.{shown};

    ghost view = { λ i. shown i.attributes i.pos i.kind };

    ghost size = { depth };

    ghost use Rattle.std.proofs.Common.{arith};
    ghost use Rattle.vl_tree.specs.ItemFalls.{falls};

    ghost size_decreases = { λ i h. Prim.omega (arith, falls i.attributes i.pos i.kind) };
}
