//! Labels of a case (IEEE 1364-2005, section 9.5).
#![tactic(auto, using(wn_net::proofs::Laws::additions))]

ghost use Rattle.std.specs.Prelude.{◌≡◌, ◌==◌, ◌∷◌, [], bit_or, IsSome, IfOk};
ghost use Rattle.fv_bits.specs.Bits.{bit};
ghost use Rattle.vl_tree.specs.declared.stmt.CaseKind.TheVariants as c;
ghost use Rattle.vl_size.specs.Size.{size};
ghost use Rattle.vl_mean.specs.Execution as spec;
ghost use Rattle.wn_net.specs.Value.{Given};
ghost use Rattle.wn_net.specs.Net.{IsNode, IsNodeOf, value_at, width_at};
ghost use Rattle.wn_net.specs.Given.{IsGiven};
ghost use Rattle.wn_net.specs.Changes.{AddsNodes, Shows};
ghost use Rattle.vl_lower_assign.specs.Frames.{AreCellsOf};
ghost use Rattle.vl_lower_stmt.specs.StepsArms.{AreSized, IsNodeOr, number_or};
ghost use Rattle.vl_lower_stmt.specs.Executes.{Matches};
ghost use Rattle.vl_lower_stmt.specs.Layout.{IsLayout};

use crate::layout::Layout;
use crate::value::number_in;
use fv_text::Memory;
use vl_lower_expr::WordType;
use vl_lower_nodes::{fit, number};
use vl_tree::{CaseKind, Expr, ExprKind};
use wn_net::{Net, NodeId};

/// What the labels of a case are compared with.
#[derive(Clone, Copy)]
pub(crate) struct CaseWord {
    pub(crate) kind: CaseKind,
    pub(crate) context: WordType,
    pub(crate) node: NodeId,
}

/// The bits of a label that match any bit in a `casez`, where there are some (section 9.5.1).
fn question_marks(net: &mut Net, context: WordType, label: &Expr) -> Result<Option<NodeId>, Memory>
    ensures adds { AddsNodes net.old net.new }
    ensures there { IfOk result (IsNodeOr net.new context.width) }
    ensures value { IfOk result (λ wild. (g : Given) → IsGiven net.old g → number_or net.new g wild
        ≡ spec.wild_bits c.Casez context.width context.signed label.now) }
{
    match &label.kind {
        ExprKind::Number(value) => {
            let wild = number(net, value.width, value.wild)?;
            let fitted = fit(net, wild, context.width, context.signed)?;
            Ok(Some(fitted))
        }
        _ => Ok(None),
    }
}

/// The bits of a label that match any bit.
fn wild_bits(net: &mut Net, word: CaseWord, label: &Expr) -> Result<Option<NodeId>, Memory>
    ensures adds { AddsNodes net.old net.new }
    ensures there { IfOk result (IsNodeOr net.new word.context.width) }
    ensures value { IfOk result (λ wild. (g : Given) → IsGiven net.old g → number_or net.new g wild
        ≡ spec.wild_bits word.kind word.context.width word.context.signed label.now) }
{
    match word.kind {
        CaseKind::Case => Ok(None),
        CaseKind::Casez => {
            let wild = question_marks(net, word.context, label)?;
            Ok(wild)
        }
    }
}

/// 1 where two numbers have the same bits but for some.
fn equal_but(net: &mut Net, a: NodeId, b: NodeId, wild: Option<NodeId>) -> Result<NodeId, Memory>
    requires left { IsNode net.old a }
    requires right { IsNodeOf net.old (width_at net.old a) b }
    requires wild { IsNodeOr net.old (width_at net.old a) wild }
    ensures adds { AddsNodes net.old net.new }
    ensures shows { IfOk result (Shows net.old net.new 1 (λ g. bit
        (bit_or (value_at net.old g a) (number_or net.old g wild)
        == bit_or (value_at net.old g b) (number_or net.old g wild)))) }
{
    match wild {
        None => {
            let same = net.eq(a, b)?;
            Ok(same)
        }
        Some(any) => {
            let left = net.or(a, any)?;
            let right = net.or(b, any)?;
            let same = net.eq(left, right)?;
            Ok(same)
        }
    }
}

/// 1 where the label has the number of the word, but for its wild bits.
fn label_matches(
    net: &mut Net,
    layout: Layout<'_>,
    cells: &[NodeId],
    word: CaseWord,
    label: &Expr,
) -> Result<NodeId, Memory>
    requires layout { IsLayout layout.decls.now layout.places.now }
    requires cells { AreCellsOf net.old layout.decls.now cells.now }
    requires word { IsNodeOf net.old word.context.width word.node }
    requires sized { IsSome (size layout.decls.now label.now) }
    ensures { IfOk result (Matches layout.entry.decls.now net.old net.new cells.now word.kind word.context.width
        word.context.signed word.node (label.now ∷ [])) }
{
    let node = number_in(net, layout, cells, label, word.context)?;
    let wild = wild_bits(net, word, label)?;
    let same = equal_but(net, node, word.node, wild)?;
    Ok(same)
}

/// 1 where one of the labels does.
pub(crate) fn some_matches(
    net: &mut Net,
    layout: Layout<'_>,
    cells: &[NodeId],
    word: CaseWord,
    labels: &[Expr],
) -> Result<NodeId, Memory>
    requires layout { IsLayout layout.decls.now layout.places.now }
    requires cells { AreCellsOf net.old layout.decls.now cells.now }
    requires word { IsNodeOf net.old word.context.width word.node }
    requires sized { AreSized layout.decls.now labels.now }
    ensures { IfOk result (Matches layout.entry.decls.now net.old net.new cells.now word.kind word.context.width
        word.context.signed word.node labels.now) }
{
    let mut some = number(net, 1, 0)?;
    for label in labels {
        let one = label_matches(net, layout, cells, word, label)?;
        some = net.or(some, one)?;
    }
    Ok(some)
}
