//! Sizes of expressions without a limit, up to `2^64 - 1`: of operations from those of their operands, and of names.
ghost use Rattle.std.specs.Prelude.{◌≡◌, ◌+◌, max, Some, IfOk, is_none, if◌then◌else◌};
ghost use Rattle.vl_tree.specs.Expr.{whole};
ghost use Rattle.vl_tree.specs.ExprView.{selects, with_select};
ghost use Rattle.vl_size.specs.Size as size_spec;
ghost use Rattle.vl_size.specs.Way.{way};
ghost use Rattle.vl_mean.specs.ConstantFaults.{capped, wide_times as times};
ghost use Rattle.vl_mean.specs.Constants as constants;
ghost use Rattle.vl_elab_spec.specs.Expressions as spec;
ghost use Rattle.vl_elab_spec.specs.Meanings.{bound};
ghost use Rattle.vl_elab_check_expr.specs.Judged.{copied, of_one, of_two};
ghost use Rattle.vl_elab_scope.specs.Seen.{seen};

use crate::bounds::span_of;
use fv_text::{Memory, Text};
use std::alloc::Global;
use vl_elab_scope::{Meaning, Names, Object, value_of};
use vl_mean::Const;
use vl_mean::widths::{binary_size, plus as added, some, unary_size, wide_times};
use vl_size::{Class, Decl};
use vl_tree::{BinaryOperator, Expr, Select, UnaryOperator};

pub(crate) fn unary_width(operator: UnaryOperator, size: Option<u64>) -> Option<u64>
    ensures { result ≡ of_one (λ m. Some (size_spec.unary_size operator m)) size }
{
    Some(unary_size(operator, size?))
}

pub(crate) fn binary_width(
    operator: BinaryOperator,
    left: Option<u64>,
    right: Option<u64>,
) -> Option<u64>
    ensures { result ≡ of_two (λ m n. Some (size_spec.size_by (way operator) m n)) left right }
{
    let left = left?;
    let right = right?;
    Some(binary_size(operator, left, right))
}

pub(crate) fn larger(first: Option<u64>, second: Option<u64>) -> Option<u64>
    ensures { result ≡ of_two (λ m n. Some (max m n)) first second }
{
    let first = first?;
    let second = second?;
    Some(first.max(second))
}

pub fn plus(first: Option<u64>, second: Option<u64>) -> Option<u64>
    ensures { result ≡ of_two (λ m n. Some (capped (m + n))) first second }
{
    let first = first?;
    let second = second?;
    Some(added(first, second))
}

/// At least one bit.
pub(crate) fn some_bits(size: Option<u64>) -> Option<u64>
    ensures { result ≡ size_spec.some_bits size }
{
    match size {
        None => None,
        Some(bits) => some(bits),
    }
}

/// So many copies of a size.
#[tactic(auto, using(crate::proofs::Values::bounds))]
fn count_width(alloc: Global, count: &Expr, size: u64, names: &Names) -> Result<Option<u64>, Memory>
    ensures { IfOk result (λ n. n ≡ spec.if_known names.now count.now (times (bound names.now count.now) size)) }
{
    let value = value_of(alloc, count, names)?;
    match value {
        None => Ok(None),
        Some(own) => Ok(wide_times(own, size)),
    }
}

pub(crate) fn copies_width(
    alloc: Global,
    count: &Expr,
    size: Option<u64>,
    names: &Names,
) -> Result<Option<u64>, Memory>
    ensures { IfOk result (λ n. n ≡ copied names.now count.now size) }
{
    match size {
        None => Ok(None),
        Some(bits) => count_width(alloc, count, bits, names),
    }
}

fn part_width(
    alloc: Global,
    decl: &Decl,
    left: &Expr,
    right: &Expr,
    names: &Names,
) -> Result<Option<u64>, Memory>
    ensures { IfOk result (λ n. n ≡ spec.part_width names.now decl.now left.now right.now) }
{
    let first = value_of(alloc, left, names)?;
    let second = value_of(alloc, right, names)?;
    match first {
        None => Ok(None),
        Some(l) => match second {
            None => Ok(None),
            Some(r) => Ok(span_of(decl, l, r)),
        },
    }
}

/// The width of a vector with selects.
#[tactic(auto, using(crate::proofs::Values::selected))]
fn vector_width(
    alloc: Global,
    decl: &Decl,
    all: &[Select],
    names: &Names,
) -> Result<Option<u64>, Memory>
    ensures { IfOk result (λ n. n ≡ spec.vector_width names.now decl.now (selects all.now)) }
{
    match all {
        [] => Ok(Some(u64::from(decl.width))),
        [select] => select_width(alloc, decl, select, names),
        [_, _, ..] => Ok(None),
    }
}

fn select_width(
    alloc: Global,
    decl: &Decl,
    select: &Select,
    names: &Names,
) -> Result<Option<u64>, Memory>
    ensures { IfOk result (λ n. n ≡ spec.vector_width names.now decl.now (with_select select.now whole)) }
{
    match select {
        Select::Bit(_, _) => Ok(Some(1)),
        Select::Part(_, left, right) => part_width(alloc, decl, left, right, names),
        Select::Indexed(_, _, count) => count_width(alloc, count, 1, names),
    }
}

/// Of a memory, the first select takes the word.
fn word_width(
    alloc: Global,
    decl: &Decl,
    all: &[Select],
    names: &Names,
) -> Result<Option<u64>, Memory>
    ensures { IfOk result (λ n. n ≡ spec.word_width names.now decl.now (selects all.now)) }
{
    match all {
        [Select::Bit(_, _), rest @ ..] => vector_width(alloc, decl, rest, names),
        [] | [Select::Part(_, _, _), ..] | [Select::Indexed(_, _, _), ..] => Ok(None),
    }
}

fn object_width(
    alloc: Global,
    object: &Object,
    all: &[Select],
    names: &Names,
) -> Result<Option<u64>, Memory>
    ensures { IfOk result (λ n. n ≡ (if is_none object.now.decl.words
        then spec.vector_width names.now object.now.decl (selects all.now)
        else spec.word_width names.now object.now.decl (selects all.now))) }
{
    if object.decl.words.is_none() {
        vector_width(alloc, &object.decl, all, names)
    } else {
        word_width(alloc, &object.decl, all, names)
    }
}

/// A constant, as it counts in a select.
pub fn vector_of(alloc: Global, text: &Text, value: &Const) -> Result<Decl, Memory>
    ensures { IfOk result (λ d. d ≡ constants.vector_of text.now value.now) }
{
    Ok(Decl {
        name: text.copied(alloc)?,
        width: value.width,
        signed: value.signed,
        left: i64::from(value.width) - 1,
        right: 0,
        words: None,
        class: Class::Net,
        output: false,
    })
}

fn constant_width(
    alloc: Global,
    text: &Text,
    value: &Const,
    all: &[Select],
    names: &Names,
) -> Result<Option<u64>, Memory>
    ensures { IfOk result (λ n. n
        ≡ spec.vector_width names.now (constants.vector_of text.now value.now) (selects all.now)) }
{
    match all {
        [] => Ok(Some(u64::from(value.width))),
        [_, ..] => {
            let decl = vector_of(alloc, text, value)?;
            vector_width(alloc, &decl, all, names)
        }
    }
}

/// The width of a name with selects.
pub fn name_width(
    alloc: Global,
    text: &Text,
    meaning: &Meaning,
    all: &[Select],
    names: &Names,
) -> Result<Option<u64>, Memory>
    ensures { IfOk result (λ n. n ≡ spec.name_width names.now text.now (seen meaning.now) (selects all.now)) }
{
    match meaning {
        Meaning::Constant(value, _) => constant_width(alloc, text, value, all, names),
        Meaning::Object(object) => object_width(alloc, object, all, names),
        Meaning::LoopVariable | Meaning::Faulty | Meaning::Shapeless | Meaning::Later => Ok(None),
    }
}
