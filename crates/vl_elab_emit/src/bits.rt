//! How many bits a target has whose indices are constant.
ghost use Rattle.std.specs.Prelude.{◌≡◌, ◌≤◌, [], IfOk, IfSome};
ghost use Rattle.fv_text.specs.declared.pos.Pos.{Pos};
ghost use Rattle.vl_tree.specs.Expr.{whole, bit, part, indexed};
ghost use Rattle.vl_tree.specs.ExprView.{selects, with_select};
ghost use Rattle.vl_tree.specs.Lval.{lvals};
ghost use Rattle.vl_size.specs.declared.decl.Decl.{Decl};
ghost use Rattle.vl_size.specs.Size as size_spec;
ghost use Rattle.vl_mean_flat.specs.FullNames.{flat_expr, flat_selects};
ghost use Rattle.vl_elab_emit.specs.Starts as spec;

use crate::constants::own;
use fv_text::{Memory, Text};
use std::alloc::Global;
use vl_elab_draft::{Scopes, flat_expr};
use vl_size::select::{part_size, plus, times};
use vl_size::{Decl, Own};
use vl_tree::{Expr, Lval, LvalKind, Select};

/// How many bits a target has, at most 128, where its indices are constant (IEEE 1364-2005, sections 4.2.1 and 5.2).
/// None exactly where a name in it isn't declared, an index isn't constant or a select isn't valid, or it has more.
#[cycle(target)]
#[tactic(auto, using(vl_tree::specs::LvalFalls::parts_fall))]
pub(crate) fn target_bits(
    alloc: Global,
    target: &Lval,
    scopes: &Scopes,
) -> Result<Option<u32>, Memory>
    ensures value { IfOk result (λ o. o ≡ spec.target_bits scopes.now target.now) }
    ensures few { IfOk result (λ o. IfSome o (λ n. n ≤ 128)) }
{
    match &target.kind {
        LvalKind::Name(text, all) => match scopes.declared(text) {
            None => Ok(None),
            Some(decl) => named_bits(alloc, decl, all.as_slice(), scopes),
        },
        LvalKind::Concat(parts) => targets_bits(alloc, parts.as_slice(), scopes),
    }
}

#[cycle(target)]
#[tactic(auto, using(crate::proofs::Parts::parts))]
fn targets_bits(alloc: Global, all: &[Lval], scopes: &Scopes) -> Result<Option<u32>, Memory>
    ensures value { IfOk result (λ o. o ≡ spec.targets_bits scopes.now (lvals all.now)) }
    ensures few { IfOk result (λ o. IfSome o (λ n. n ≤ 128)) }
{
    let mut bits = Some(0);
    let mut place = all.len();
    while place > 0 {
        place -= 1;
        bits = sum(target_bits(alloc, &all[place], scopes)?, bits);
    }
    Ok(bits)
}

/// Of both together, at most 128.
fn sum(first: Option<u32>, rest: Option<u32>) -> Option<u32>
    requires first { IfSome first (λ n. n ≤ 128) }
    requires rest { IfSome rest (λ n. n ≤ 128) }
    ensures value { result ≡ spec.sum first rest }
    ensures few { IfSome result (λ n. n ≤ 128) }
{
    plus(first?, rest?)
}

/// Of a name with its selects.
fn named_bits(
    alloc: Global,
    decl: &Decl,
    all: &[Select],
    scopes: &Scopes,
) -> Result<Option<u32>, Memory>
    ensures value { IfOk result (λ o. o
        ≡ spec.few_bits (spec.selected_bits decl.now (flat_selects scopes.now (selects all.now)))) }
    ensures few { IfOk result (λ o. IfSome o (λ n. n ≤ 128)) }
{
    let bits = selected_bits(alloc, decl, all, scopes)?;
    Ok(few_bits(bits))
}

fn few_bits(bits: Option<u32>) -> Option<u32>
    ensures value { result ≡ spec.few_bits bits }
    ensures few { IfSome result (λ n. n ≤ 128) }
{
    let bits = bits?;
    if bits <= 128 { Some(bits) } else { None }
}

fn selected_bits(
    alloc: Global,
    decl: &Decl,
    all: &[Select],
    scopes: &Scopes,
) -> Result<Option<u32>, Memory>
    ensures { IfOk result (λ o. o ≡ spec.selected_bits decl.now (flat_selects scopes.now (selects all.now))) }
{
    if decl.words.is_none() {
        return vector_bits(alloc, decl, all, scopes);
    }
    match all.split_first() {
        None => Ok(None),
        Some((first, rest)) => first_bits(alloc, decl, first, rest, scopes),
    }
}

/// Of a memory, the first select takes the word.
fn first_bits(
    alloc: Global,
    decl: &Decl,
    first: &Select,
    rest: &[Select],
    scopes: &Scopes,
) -> Result<Option<u32>, Memory>
    ensures { IfOk result (λ o. o ≡ size_spec.word_size [] decl.now
        (flat_selects scopes.now (with_select first.now (selects rest.now)))) }
{
    match first {
        Select::Bit(_, index) => word_bits(alloc, decl, index, rest, scopes),
        Select::Part(_, _, _) => Ok(None),
        Select::Indexed(_, _, _) => Ok(None),
    }
}

/// Of a memory's word.
#[tactic(auto, using(crate::proofs::Indices::selecting))]
fn word_bits(
    alloc: Global,
    decl: &Decl,
    index: &Expr,
    rest: &[Select],
    scopes: &Scopes,
) -> Result<Option<u32>, Memory>
    ensures { IfOk result (λ o. (p : Pos) → o ≡ size_spec.word_size [] decl.now
        (bit p (flat_expr scopes.now index.now) (flat_selects scopes.now (selects rest.now)))) }
{
    match own_of(alloc, index, scopes)? {
        None => Ok(None),
        Some(_) => vector_bits(alloc, decl, rest, scopes),
    }
}

/// Of a vector, which has one select at most.
fn vector_bits(
    alloc: Global,
    decl: &Decl,
    all: &[Select],
    scopes: &Scopes,
) -> Result<Option<u32>, Memory>
    ensures { IfOk result (λ o. o
        ≡ size_spec.vector_size [] decl.now (flat_selects scopes.now (selects all.now))) }
{
    match all {
        [] => Ok(Some(decl.width)),
        [select] => select_bits(alloc, decl, select, scopes),
        [_, _, ..] => Ok(None),
    }
}

/// Of a vector's select.
fn select_bits(
    alloc: Global,
    decl: &Decl,
    select: &Select,
    scopes: &Scopes,
) -> Result<Option<u32>, Memory>
    ensures { IfOk result (λ o. o
        ≡ size_spec.vector_size [] decl.now (flat_selects scopes.now (with_select select.now whole))) }
{
    match select {
        Select::Bit(_, index) => bit_bits(alloc, index, scopes),
        Select::Part(_, left, right) => part_bits(alloc, decl, left, right, scopes),
        Select::Indexed(_, start, width) => indexed_bits(alloc, start, width, scopes),
    }
}

#[tactic(auto, using(crate::proofs::Indices::selecting))]
fn bit_bits(alloc: Global, index: &Expr, scopes: &Scopes) -> Result<Option<u32>, Memory>
    ensures { IfOk result (λ o. (d : Decl) (p : Pos) → o
        ≡ size_spec.vector_size [] d (bit p (flat_expr scopes.now index.now) whole)) }
{
    match own_of(alloc, index, scopes)? {
        None => Ok(None),
        Some(_) => Ok(Some(1)),
    }
}

#[tactic(auto, using(crate::proofs::Indices::selecting))]
fn part_bits(
    alloc: Global,
    decl: &Decl,
    left: &Expr,
    right: &Expr,
    scopes: &Scopes,
) -> Result<Option<u32>, Memory>
    ensures { IfOk result (λ o. (p : Pos) → o ≡ size_spec.vector_size [] decl.now
        (part p (flat_expr scopes.now left.now) (flat_expr scopes.now right.now) whole)) }
{
    let Some(left) = own_of(alloc, left, scopes)? else {
        return Ok(None);
    };
    let Some(right) = own_of(alloc, right, scopes)? else {
        return Ok(None);
    };
    Ok(part_size(decl, left, right))
}

#[tactic(auto, using(crate::proofs::Indices::selecting))]
fn indexed_bits(
    alloc: Global,
    start: &Expr,
    width: &Expr,
    scopes: &Scopes,
) -> Result<Option<u32>, Memory>
    ensures { IfOk result (λ o. (d : Decl) (p : Pos) → o ≡ size_spec.vector_size [] d
        (indexed p (flat_expr scopes.now start.now) (flat_expr scopes.now width.now) whole)) }
{
    let Some(_) = own_of(alloc, start, scopes)? else {
        return Ok(None);
    };
    let Some(width) = own_of(alloc, width, scopes)? else {
        return Ok(None);
    };
    Ok(times(width, 1))
}

/// An index, a bound or a count by itself. None exactly where it isn't constant or has no size.
fn own_of(alloc: Global, expr: &Expr, scopes: &Scopes) -> Result<Option<Own>, Memory>
    ensures { IfOk result (λ o. spec.IsOwn (flat_expr scopes.now expr.now) o) }
{
    let expr = flat_expr(alloc, expr, scopes)?;
    Ok(own(alloc, &expr))
}
