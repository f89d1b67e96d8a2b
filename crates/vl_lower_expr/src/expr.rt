//! Expressions as nodes.
#![tactic(auto, using(vl_tree::specs::ExprFalls::parts_fall, crate::proofs::Compose::steps, wn_net::proofs::Laws::additions))]

ghost use Rattle.std.specs.Prelude.{◌≡◌, ◌+◌, ◌*◌, ◌^◌, ◌≤◌, max, ◌&&◌, ◌||◌, false, is_none, if◌then◌else◌, nat_abs};
ghost use Rattle.std.specs.Prelude.{IsSome, IfOk, None};
ghost use Rattle.fv_text.specs.declared.pos.Pos.{Pos};
ghost use Rattle.fv_bits.specs.Bits as bits;
ghost use Rattle.vl_tree.specs.Expr.{exprs, name, repeat, whole, indexed};
ghost use Rattle.vl_tree.specs.ExprView.{selects, with_select};
ghost use Rattle.vl_size.specs.Size as spec;
ghost use Rattle.vl_size.specs.Size.{or_none, some_bits};
ghost use Rattle.vl_size.specs.Sign.{sign};
ghost use Rattle.vl_size.specs.Table.{IsShaped, declared_as};
ghost use Rattle.vl_mean.specs.FlatLaw.{IsKept};
ghost use Rattle.vl_size.specs.Way.{way};
ghost use Rattle.wn_net.specs.Net.{IsNode, IsNodeOf, width_at, value_at};
ghost use Rattle.wn_net.specs.Changes.{AddsNodes, Shows};
ghost use Rattle.vl_lower_expr.specs.Bound.{bound, AreBound, HasPlace};
ghost use Rattle.vl_lower_expr.specs.Lowers.{Lowers};

use crate::bindings::Bindings;
use crate::constants::constant_node;
use crate::copies::copies;
use crate::memory::word_at;
use crate::names::found;
use crate::place::Place;
use crate::range::{count_of, part_select};
use crate::word_type::WordType;
use fv_text::{Memory, Number, Text};
use vl_lower_nodes::{
    arithmetic, bit_at, compared, fit, is_some, negative, number, part_at, reduced, shifted,
};
use vl_size::way::{Way, divides, keeps_size, way_of};
use vl_size::{Decl, self_size, sign_of};
use vl_tree::{BinaryOperator, Expr, ExprKind, Select, UnaryOperator};
use wn_net::{Net, NodeId};

/// The node of an expression that has a size by itself, in a context that is at least as wide. In each cycle it has the
/// expression's number over each map whose numbers stand at the places of the names.
#[cycle(term)]
pub fn term(
    net: &mut Net,
    names: Bindings<'_>,
    expr: &Expr,
    kind: WordType,
) -> Result<NodeId, Memory>
    requires bound { AreBound net.old (bound names) }
    requires sized { IsSome (spec.size names.decls.now expr.now) }
    ensures { IfOk result (Lowers net.old net.new (bound names.entry) kind.width
        (λ g v. spec.value names.entry.decls.now v kind.width kind.signed expr.now)) }
{
    match &expr.kind {
        ExprKind::Number(value) => Ok(literal(net, value, kind)?),
        ExprKind::Name(text, all) => Ok(named(net, names, text, all.as_slice(), kind)?),
        ExprKind::Paren(inner) => Ok(term(net, names, inner, kind)?),
        ExprKind::Unary(operator, operand) => Ok(unary(net, names, *operator, operand, kind)?),
        ExprKind::Binary(operator, left, right) => {
            if divides(*operator) {
                return Ok(constant_node(net, names, expr, kind)?);
            }
            Ok(binary(net, names, *operator, left, right, kind)?)
        }
        ExprKind::Conditional(condition, first, second) => Ok(choice(
            net, names, condition, first, second, kind,
        )?),
        ExprKind::Concat(parts) => Ok(joined(net, names, parts.as_slice(), kind)?),
        ExprKind::Repeat(count, parts) => Ok(repeated(net, names, count, parts.as_slice(), kind)?),
        ExprKind::Cast(_, operand) => Ok(changed(net, names, operand, kind)?),
    }
}

/// A number as it is written.
#[tactic(auto, using(wn_net::proofs::Laws::additions))]
fn literal(net: &mut Net, value: &Number, kind: WordType) -> Result<NodeId, Memory>
    ensures adds { AddsNodes net.old net.new }
    ensures shows { IfOk result (Shows net.old net.new kind.width
        (λ g. bits.extended value.now.width kind.width kind.signed value.now.value)) }
{
    let node = number(net, value.width, value.value)?;
    let fitted = fit(net, node, kind.width, kind.signed)?;
    Ok(fitted)
}

/// At the size and the sign that the expression has by itself.
#[cycle(term)]
pub fn own(net: &mut Net, names: Bindings<'_>, expr: &Expr) -> Result<NodeId, Memory>
    requires bound { AreBound net.old (bound names) }
    requires sized { IsSome (spec.size names.decls.now expr.now) }
    ensures { IfOk result (Lowers net.old net.new (bound names.entry) (or_none
        (spec.size names.entry.decls.now expr.now))
        (λ g v. spec.own (spec.operand_of names.entry.decls.now v expr.now))) }
{
    let Some(width) = self_size(expr, names.decls) else {
        unreachable!()
    };
    let signed = sign_of(expr, names.decls);
    Ok(term(net, names, expr, WordType { width, signed })?)
}

/// 1 where the value by itself isn't 0.
#[cycle(term)]
pub fn truth(net: &mut Net, names: Bindings<'_>, expr: &Expr) -> Result<NodeId, Memory>
    requires bound { AreBound net.old (bound names) }
    requires sized { IsSome (spec.size names.decls.now expr.now) }
    ensures { IfOk result (Lowers net.old net.new (bound names.entry) 1
        (λ g v. bits.bit (spec.is_true (spec.operand_of names.entry.decls.now v expr.now)))) }
{
    let node = own(net, names, expr)?;
    Ok(is_some(net, node)?)
}

/// Of two expressions, the first where the condition isn't 0 (section 5.1.13).
#[cycle(term)]
fn choice(
    net: &mut Net,
    names: Bindings<'_>,
    condition: &Expr,
    first: &Expr,
    second: &Expr,
    kind: WordType,
) -> Result<NodeId, Memory>
    requires bound { AreBound net.old (bound names) }
    requires condition { IsSome (spec.size names.decls.now condition.now) }
    requires first { IsSome (spec.size names.decls.now first.now) }
    requires second { IsSome (spec.size names.decls.now second.now) }
    ensures { IfOk result (Lowers net.old net.new (bound names.entry) kind.width
        (λ g v. let ds = names.entry.decls.now in
        if spec.is_true (spec.operand_of ds v condition.now) then spec.value ds v kind.width kind.signed first.now
        else spec.value ds v kind.width kind.signed second.now)) }
{
    let test = truth(net, names, condition)?;
    let yes = term(net, names, first, kind)?;
    let no = term(net, names, second, kind)?;
    Ok(net.mux(test, yes, no)?)
}

/// An expression by itself, as a number of another sign (section 5.5).
#[cycle(term)]
fn changed(
    net: &mut Net,
    names: Bindings<'_>,
    operand: &Expr,
    kind: WordType,
) -> Result<NodeId, Memory>
    requires bound { AreBound net.old (bound names) }
    requires sized { IsSome (spec.size names.decls.now operand.now) }
    ensures { IfOk result (Lowers net.old net.new (bound names.entry) kind.width
        (λ g v. let x = spec.operand_of names.entry.decls.now v operand.now in
        bits.extended x.size kind.width kind.signed (spec.own x))) }
{
    let node = own(net, names, operand)?;
    Ok(fit(net, node, kind.width, kind.signed)?)
}

#[cycle(term)]
fn unary(
    net: &mut Net,
    names: Bindings<'_>,
    operator: UnaryOperator,
    operand: &Expr,
    kind: WordType,
) -> Result<NodeId, Memory>
    requires bound { AreBound net.old (bound names) }
    requires sized { IsSome (spec.size names.decls.now operand.now) }
    ensures { IfOk result (Lowers net.old net.new (bound names.entry) kind.width
        (λ g v. spec.unary_number operator kind.width kind.signed
        (spec.operand_of names.entry.decls.now v operand.now))) }
{
    match operator {
        UnaryOperator::Plus => Ok(term(net, names, operand, kind)?),
        UnaryOperator::Minus => {
            let node = term(net, names, operand, kind)?;
            Ok(negative(net, node)?)
        }
        UnaryOperator::BitwiseNot => {
            let node = term(net, names, operand, kind)?;
            Ok(net.not(node)?)
        }
        _ => Ok(reduction(net, names, operator, operand, kind)?),
    }
}

/// The bits of an operand by itself, joined to one.
#[cycle(term)]
fn reduction(
    net: &mut Net,
    names: Bindings<'_>,
    operator: UnaryOperator,
    operand: &Expr,
    kind: WordType,
) -> Result<NodeId, Memory>
    requires bound { AreBound net.old (bound names) }
    requires sized { IsSome (spec.size names.decls.now operand.now) }
    ensures { IfOk result (Lowers net.old net.new (bound names.entry) kind.width
        (λ g v. let x = spec.operand_of names.entry.decls.now v operand.now in
        bits.extended 1 kind.width kind.signed (bits.bit (spec.reduced operator x.size (spec.own x))))) }
{
    let node = own(net, names, operand)?;
    let bit = reduced(net, operator, node)?;
    Ok(fit(net, bit, kind.width, kind.signed)?)
}

#[cycle(term)]
fn binary(
    net: &mut Net,
    names: Bindings<'_>,
    operator: BinaryOperator,
    left: &Expr,
    right: &Expr,
    kind: WordType,
) -> Result<NodeId, Memory>
    requires bound { AreBound net.old (bound names) }
    requires left { IsSome (spec.size names.decls.now left.now) }
    requires right { IsSome (spec.size names.decls.now right.now) }
    requires whole { spec.divides operator ≡ false }
    ensures { IfOk result (Lowers net.old net.new (bound names.entry) kind.width
        (λ g v. spec.binary_number (way operator) operator kind.width kind.signed
        (spec.operand_of names.entry.decls.now v left.now) (spec.operand_of names.entry.decls.now v right.now))) }
{
    match way_of(operator) {
        Way::Larger => {
            let a = term(net, names, left, kind)?;
            let b = term(net, names, right, kind)?;
            Ok(arithmetic(net, operator, a, b)?)
        }
        Way::Left => {
            let a = term(net, names, left, kind)?;
            let b = own(net, names, right)?;
            Ok(shifted(net, operator, kind.signed, a, b)?)
        }
        Way::One => {
            let bit = tested(net, names, operator, left, right)?;
            Ok(fit(net, bit, kind.width, kind.signed)?)
        }
    }
}

/// Both operands at the larger of their sizes, signed where both are; of `&&` and `||` each by itself.
#[cycle(term)]
fn tested(
    net: &mut Net,
    names: Bindings<'_>,
    operator: BinaryOperator,
    left: &Expr,
    right: &Expr,
) -> Result<NodeId, Memory>
    requires bound { AreBound net.old (bound names) }
    requires left { IsSome (spec.size names.decls.now left.now) }
    requires right { IsSome (spec.size names.decls.now right.now) }
    ensures { IfOk result (Lowers net.old net.new (bound names.entry) 1
        (λ g v. bits.bit (spec.tested operator (spec.operand_of names.entry.decls.now v left.now)
        (spec.operand_of names.entry.decls.now v right.now)))) }
{
    match operator {
        BinaryOperator::LogicalAnd => Ok(both(net, names, left, right)?),
        BinaryOperator::LogicalOr => Ok(either(net, names, left, right)?),
        _ => Ok(comparison(net, names, operator, left, right)?),
    }
}

#[cycle(term)]
fn both(net: &mut Net, names: Bindings<'_>, left: &Expr, right: &Expr) -> Result<NodeId, Memory>
    requires bound { AreBound net.old (bound names) }
    requires left { IsSome (spec.size names.decls.now left.now) }
    requires right { IsSome (spec.size names.decls.now right.now) }
    ensures { IfOk result (Lowers net.old net.new (bound names.entry) 1
        (λ g v. bits.bit (spec.is_true (spec.operand_of names.entry.decls.now v left.now)
        && spec.is_true (spec.operand_of names.entry.decls.now v right.now)))) }
{
    let a = truth(net, names, left)?;
    let b = truth(net, names, right)?;
    Ok(net.and(a, b)?)
}

#[cycle(term)]
fn either(net: &mut Net, names: Bindings<'_>, left: &Expr, right: &Expr) -> Result<NodeId, Memory>
    requires bound { AreBound net.old (bound names) }
    requires left { IsSome (spec.size names.decls.now left.now) }
    requires right { IsSome (spec.size names.decls.now right.now) }
    ensures { IfOk result (Lowers net.old net.new (bound names.entry) 1
        (λ g v. bits.bit (spec.is_true (spec.operand_of names.entry.decls.now v left.now)
        || spec.is_true (spec.operand_of names.entry.decls.now v right.now)))) }
{
    let a = truth(net, names, left)?;
    let b = truth(net, names, right)?;
    Ok(net.or(a, b)?)
}

/// The size and the sign that the operands of a comparison have: the larger size, signed where both are.
fn common_type(names: Bindings<'_>, left: &Expr, right: &Expr) -> WordType
    requires left { IsSome (spec.size names.decls.now left.now) }
    requires right { IsSome (spec.size names.decls.now right.now) }
    ensures width { result.width ≡ max (or_none (spec.size names.entry.decls.now left.now))
        (or_none (spec.size names.entry.decls.now right.now)) }
    ensures signed { result.signed ≡ (sign names.entry.decls.now left.now && sign names.entry.decls.now right.now) }
{
    let (Some(m), Some(n)) = (self_size(left, names.decls), self_size(right, names.decls)) else {
        unreachable!()
    };
    let signed = sign_of(left, names.decls) && sign_of(right, names.decls);
    WordType {
        width: m.max(n),
        signed,
    }
}

#[cycle(term)]
fn comparison(
    net: &mut Net,
    names: Bindings<'_>,
    operator: BinaryOperator,
    left: &Expr,
    right: &Expr,
) -> Result<NodeId, Memory>
    requires bound { AreBound net.old (bound names) }
    requires left { IsSome (spec.size names.decls.now left.now) }
    requires right { IsSome (spec.size names.decls.now right.now) }
    ensures { IfOk result (Lowers net.old net.new (bound names.entry) 1
        (λ g v. let x = spec.operand_of names.entry.decls.now v left.now in
        let y = spec.operand_of names.entry.decls.now v right.now in
        let w = max x.size y.size in
        let s = x.sign && y.sign in
        bits.bit (spec.compared operator w s (x.at w s) (y.at w s)))) }
{
    let kind = common_type(names, left, right);
    let a = term(net, names, left, kind)?;
    let b = term(net, names, right, kind)?;
    Ok(compared(net, operator, kind.signed, a, b)?)
}

/// A node, and an expression by itself behind it.
#[cycle(term)]
fn behind(net: &mut Net, names: Bindings<'_>, front: NodeId, part: &Expr) -> Result<NodeId, Memory>
    requires bound { AreBound net.old (bound names) }
    requires front { IsNode net.old front }
    requires sized { IsSome (spec.size names.decls.now part.now) }
    requires few { width_at net.old front + or_none (spec.size names.decls.now part.now) ≤ 128 }
    ensures { let n = or_none (spec.size names.entry.decls.now part.now) in
        IfOk result (Lowers net.old net.new (bound names.entry) (width_at net.old front + n)
        (λ g v. value_at net.old g front * 2 ^ n + spec.own (spec.operand_of names.entry.decls.now v part.now))) }
{
    let node = own(net, names, part)?;
    Ok(net.concat(front, node)?)
}

/// The bits of each part before those of the next (section 5.1.14).
#[cycle(term)]
fn concatenated(net: &mut Net, names: Bindings<'_>, all: &[Expr]) -> Result<NodeId, Memory>
    requires bound { AreBound net.old (bound names) }
    requires sized { IsSome (some_bits (spec.sizes names.decls.now (exprs all.now))) }
    ensures { IfOk result (Lowers net.old net.new (bound names.entry)
        (or_none (spec.sizes names.entry.decls.now (exprs all.now)))
        (λ g v. spec.concatenated names.entry.decls.now v (exprs all.now))) }
{
    let Some((first, rest)) = all.split_first() else {
        unreachable!()
    };
    let mut front = own(net, names, first)?;
    for part in rest {
        front = behind(net, names, front, part)?;
    }
    Ok(front)
}

/// A concatenation in a context.
#[cycle(term)]
fn joined(
    net: &mut Net,
    names: Bindings<'_>,
    all: &[Expr],
    kind: WordType,
) -> Result<NodeId, Memory>
    requires bound { AreBound net.old (bound names) }
    requires sized { IsSome (some_bits (spec.sizes names.decls.now (exprs all.now))) }
    ensures { IfOk result (Lowers net.old net.new (bound names.entry) kind.width
        (λ g v. spec.with_size (some_bits (spec.sizes names.entry.decls.now (exprs all.now)))
        (λ m. bits.extended m kind.width kind.signed (spec.concatenated names.entry.decls.now v (exprs all.now))))) }
{
    let node = concatenated(net, names, all)?;
    Ok(fit(net, node, kind.width, kind.signed)?)
}

/// Copies of a concatenation in a context.
#[cycle(term)]
fn repeated(
    net: &mut Net,
    names: Bindings<'_>,
    count: &Expr,
    all: &[Expr],
    kind: WordType,
) -> Result<NodeId, Memory>
    requires bound { AreBound net.old (bound names) }
    requires sized { (p : Pos) → IsSome (spec.size names.decls.now (repeat p count.now (exprs all.now))) }
    ensures { IfOk result (Lowers net.old net.new (bound names.entry) kind.width
        (λ g v. let ds = names.entry.decls.now in
        spec.with_size (some_bits (spec.sizes ds (exprs all.now))) (λ k.
        let n = spec.index_of (spec.operand_of ds v count.now) in
        spec.with_size (spec.times n k) (λ m. bits.extended m kind.width kind.signed
        (spec.copies (nat_abs n) k (spec.concatenated ds v (exprs all.now))))))) }
{
    let node = concatenated(net, names, all)?;
    let count = count_of(count, net.width(node), names);
    let whole = copies(net, node, count)?;
    Ok(fit(net, whole, kind.width, kind.signed)?)
}

/// A name with its selects (sections 5.2.1 and 5.2.2).
#[cycle(term)]
fn named(
    net: &mut Net,
    names: Bindings<'_>,
    text: &Text,
    all: &[Select],
    kind: WordType,
) -> Result<NodeId, Memory>
    requires bound { AreBound net.old (bound names) }
    requires sized { (p : Pos) → IsSome (spec.size names.decls.now (name p text.now (selects all.now))) }
    ensures { IfOk result (Lowers net.old net.new (bound names.entry) kind.width
        (λ g v. let ds = names.entry.decls.now in spec.with_decl (declared_as ds text.now) (λ d.
        if is_none d.words
        then spec.vector_value ds v kind.width kind.signed d (v d.name None) (selects all.now)
        else spec.word_value ds v kind.width kind.signed d (selects all.now)))) }
{
    let (decl, place) = found(names, text);
    match place {
        Place::Vector(at) => {
            let node = names.cells[at];
            Ok(selected(net, names, decl, node, all, kind)?)
        }
        _ => Ok(word(net, names, decl, place, all, kind)?),
    }
}

/// A word of a memory, or bits of one.
#[cycle(term)]
fn word(
    net: &mut Net,
    names: Bindings<'_>,
    decl: &Decl,
    place: Place,
    all: &[Select],
    kind: WordType,
) -> Result<NodeId, Memory>
    requires bound { AreBound net.old (bound names) }
    requires place { HasPlace (bound names) decl.now place }
    requires memory { IsSome decl.now.words }
    requires sized { IsSome (spec.word_size names.decls.now decl.now (selects all.now)) }
    ensures { IfOk result (Lowers net.old net.new (bound names.entry) kind.width
        (λ g v. spec.word_value names.entry.decls.now v kind.width kind.signed decl.now (selects all.now))) }
{
    let Some((first, others)) = all.split_first() else {
        unreachable!()
    };
    match first {
        Select::Bit(_, index) => {
            let node = own(net, names, index)?;
            let signed = sign_of(index, names.decls);
            let word = word_at(net, names, decl, place, node, signed)?;
            Ok(selected(net, names, decl, word, others, kind)?)
        }
        Select::Part(_, _, _) => unreachable!(),
        Select::Indexed(_, _, _) => unreachable!(),
    }
}

/// A vector whose node is known, or bits of it: it has one select at most.
#[cycle(term)]
fn selected(
    net: &mut Net,
    names: Bindings<'_>,
    decl: &Decl,
    vector: NodeId,
    all: &[Select],
    kind: WordType,
) -> Result<NodeId, Memory>
    requires bound { AreBound net.old (bound names) }
    requires vector { IsNodeOf net.old decl.now.width vector }
    requires kept { IsKept decl.now }
    requires shaped { IsShaped decl.now }
    requires sized { IsSome (spec.vector_size names.decls.now decl.now (selects all.now)) }
    ensures { IfOk result (Lowers net.old net.new (bound names.entry) kind.width
        (λ g v. spec.vector_value names.entry.decls.now v kind.width kind.signed decl.now (value_at net.old g vector)
        (selects all.now))) }
{
    match all.split_first() {
        None => Ok(fit(net, vector, kind.width, kind.signed)?),
        Some((select, _behind)) => Ok(one_select(net, names, decl, vector, select, kind)?),
    }
}

/// The bits of a vector that one select takes.
#[cycle(term)]
fn one_select(
    net: &mut Net,
    names: Bindings<'_>,
    decl: &Decl,
    vector: NodeId,
    select: &Select,
    kind: WordType,
) -> Result<NodeId, Memory>
    requires bound { AreBound net.old (bound names) }
    requires vector { IsNodeOf net.old decl.now.width vector }
    requires kept { IsKept decl.now }
    requires shaped { IsShaped decl.now }
    requires sized { IsSome (spec.vector_size names.decls.now decl.now (with_select select.now whole)) }
    ensures { IfOk result (Lowers net.old net.new (bound names.entry) kind.width
        (λ g v. spec.vector_value names.entry.decls.now v kind.width kind.signed decl.now (value_at net.old g vector)
        (with_select select.now whole))) }
{
    match select {
        Select::Bit(_, index) => Ok(bit_select(net, names, decl, vector, index, kind)?),
        Select::Part(_, left, right) => Ok(part_select(
            net, names, decl, vector, left, right, kind,
        )?),
        Select::Indexed(_, start, count) => Ok(indexed_select(
            net, names, decl, vector, start, count, kind,
        )?),
    }
}

/// The bit `[index]`.
#[cycle(term)]
fn bit_select(
    net: &mut Net,
    names: Bindings<'_>,
    decl: &Decl,
    vector: NodeId,
    index: &Expr,
    kind: WordType,
) -> Result<NodeId, Memory>
    requires bound { AreBound net.old (bound names) }
    requires vector { IsNodeOf net.old decl.now.width vector }
    requires kept { IsKept decl.now }
    requires shaped { IsShaped decl.now }
    requires sized { IsSome (spec.size names.decls.now index.now) }
    ensures { IfOk result (Lowers net.old net.new (bound names.entry) kind.width
        (λ g v. bits.extended 1 kind.width kind.signed (spec.bit_at decl.now.width (value_at net.old g vector)
        (spec.offset_of decl.now (spec.index_of (spec.operand_of names.entry.decls.now v index.now)))))) }
{
    let node = own(net, names, index)?;
    let signed = sign_of(index, names.decls);
    let bit = bit_at(net, decl, vector, node, signed)?;
    Ok(fit(net, bit, kind.width, kind.signed)?)
}

/// The bits `[start +: count]`.
#[cycle(term)]
fn indexed_select(
    net: &mut Net,
    names: Bindings<'_>,
    decl: &Decl,
    vector: NodeId,
    start: &Expr,
    count: &Expr,
    kind: WordType,
) -> Result<NodeId, Memory>
    requires bound { AreBound net.old (bound names) }
    requires vector { IsNodeOf net.old decl.now.width vector }
    requires kept { IsKept decl.now }
    requires shaped { IsShaped decl.now }
    requires sized { (p : Pos) → IsSome (spec.vector_size names.decls.now decl.now
        (indexed p start.now count.now whole)) }
    ensures { IfOk result (Lowers net.old net.new (bound names.entry) kind.width
        (λ g v. let ds = names.entry.decls.now in
        let k = nat_abs (spec.index_of (spec.operand_of ds v count.now)) in
        bits.extended k kind.width kind.signed (spec.bits_from k decl.now.width (value_at net.old g vector)
        (spec.start_of decl.now (spec.index_of (spec.operand_of ds v start.now)) k)))) }
{
    let node = own(net, names, start)?;
    let signed = sign_of(start, names.decls);
    let count = count_of(count, 1, names);
    let part = part_at(net, decl, vector, node, signed, count)?;
    Ok(fit(net, part, kind.width, kind.signed)?)
}
