//! Where names with their selects are refused.
ghost use Rattle.std.specs.Prelude.{◌≡◌, ◌&&◌, ◌||◌, not, int_le, pos, List, IfOk};
ghost use Rattle.vl_tree.specs.ExprView.{selects};
ghost use Rattle.vl_size.specs.Size as size_spec;
ghost use Rattle.vl_size.specs.Size.{is_bound};
ghost use Rattle.vl_mean.specs.Constants as constants;
ghost use Rattle.vl_mean.specs.Scopes.{is_clock_class};
ghost use Rattle.vl_elab_spec.specs.Expressions as spec;
ghost use Rattle.vl_elab_spec.specs.Meanings as meanings;
ghost use Rattle.vl_elab_spec.specs.Refused.{lowest};
ghost use Rattle.vl_elab_check_expr.specs.Judged.{alone};
ghost use Rattle.vl_elab_scope.specs.Seen.{seen};

use crate::bounds::{goes_along, is_some_copies};
use crate::fault::{clock_if, first_of, not_constant_if, range_if};
use crate::width::vector_of;
use fv_text::{Memory, Pos, Text};
use std::alloc::Global;
use vl_elab_scope::{Meaning, Names, Object, value_of};
use vl_elab_spec::ElabFault;
use vl_mean::Const;
use vl_mean::widths::bound;
use vl_size::{Class, Decl};
use vl_tree::{Expr, Select};

/// Whether it is a bound past 32 signed bits.
fn is_far(alloc: Global, expr: &Expr, names: &Names) -> Result<bool, Memory>
    ensures { IfOk result (λ b. b
        ≡ (meanings.is_known names.now expr.now && not (is_bound (meanings.bound names.now expr.now)))) }
{
    let value = value_of(alloc, expr, names)?;
    match value {
        None => Ok(false),
        Some(own) => Ok(bound(own).is_none()),
    }
}

/// A bound past 32 signed bits, at the place of its range.
pub fn far_fault(
    alloc: Global,
    pos: Pos,
    expr: &Expr,
    names: &Names,
) -> Result<Option<ElabFault>, Memory>
    ensures { IfOk result (λ g. g ≡ lowest (spec.far names.now pos expr.now)) }
{
    Ok(range_if(is_far(alloc, expr, names)?, pos))
}

/// Whether the part from left to right goes against the declared range.
fn is_against(
    alloc: Global,
    decl: &Decl,
    left: &Expr,
    right: &Expr,
    names: &Names,
) -> Result<bool, Memory>
    ensures { IfOk result (λ b. b ≡ (meanings.is_known names.now left.now && (meanings.is_known names.now right.now
        && not (size_spec.goes_along decl.now (meanings.bound names.now left.now)
        (meanings.bound names.now right.now))))) }
{
    let first = value_of(alloc, left, names)?;
    let second = value_of(alloc, right, names)?;
    match first {
        None => Ok(false),
        Some(l) => match second {
            None => Ok(false),
            Some(r) => Ok(!goes_along(decl, l, r)),
        },
    }
}

/// Whether it is a count below 1.
pub(crate) fn lacks_copies(alloc: Global, count: &Expr, names: &Names) -> Result<bool, Memory>
    ensures { IfOk result (λ b. b ≡ (meanings.is_known names.now count.now
        && not (int_le (pos 1) (meanings.bound names.now count.now)))) }
{
    let value = value_of(alloc, count, names)?;
    match value {
        None => Ok(false),
        Some(own) => Ok(!is_some_copies(own)),
    }
}

/// A select behind a bit or a part.
fn behind_fault(all: &[Select]) -> Option<ElabFault>
    ensures { (ns : List meanings.Names) → result ≡ lowest (spec.none_behind ns (selects all.now)) }
{
    match all {
        [] => None,
        [Select::Bit(pos, _), ..]
        | [Select::Part(pos, _, _), ..]
        | [Select::Indexed(pos, _, _), ..] => Some(ElabFault::Range(*pos)),
    }
}

/// Of a part: the vector may not be selected from, a bound is far, or it goes against the declared range.
fn is_wrong_part(may: bool, far_left: bool, far_right: bool, against: bool) -> bool
    ensures { result ≡ (not may || far_left || far_right || against) }
{
    !may || far_left || far_right || against
}

fn is_wrong_indexed(may: bool, lacks: bool) -> bool
    ensures { result ≡ (not may || lacks) }
{
    !may || lacks
}

/// The select of a vector that may be selected from, or else of none.
#[tactic(auto, using(crate::proofs::Lowest::alike))]
fn alone_fault(
    alloc: Global,
    may: bool,
    decl: &Decl,
    select: &Select,
    names: &Names,
) -> Result<Option<ElabFault>, Memory>
    ensures { IfOk result (λ g. g ≡ lowest (alone names.now may decl.now select.now)) }
{
    match select {
        Select::Bit(pos, _) => Ok(range_if(!may, *pos)),
        Select::Part(pos, left, right) => {
            let far_left = is_far(alloc, left, names)?;
            let far_right = is_far(alloc, right, names)?;
            let against = is_against(alloc, decl, left, right, names)?;
            Ok(range_if(is_wrong_part(may, far_left, far_right, against), *pos))
        }
        Select::Indexed(pos, _, count) => {
            let lacks = lacks_copies(alloc, count, names)?;
            Ok(range_if(is_wrong_indexed(may, lacks), *pos))
        }
    }
}

#[tactic(auto, using(crate::proofs::Lowest::lowest_parts))]
pub fn vector_fault(
    alloc: Global,
    may: bool,
    decl: &Decl,
    all: &[Select],
    names: &Names,
) -> Result<Option<ElabFault>, Memory>
    ensures { IfOk result (λ g. g ≡ lowest (spec.vector_selects names.now may decl.now (selects all.now))) }
{
    match all {
        [] => Ok(None),
        [select, rest @ ..] => {
            let alone = alone_fault(alloc, may, decl, select, names)?;
            Ok(first_of(alone, behind_fault(rest)))
        }
    }
}

/// Of a memory, the first select is an index, and a word is read as a vector, also one of one bit.
fn memory_fault(
    alloc: Global,
    pos: Pos,
    decl: &Decl,
    all: &[Select],
    names: &Names,
) -> Result<Option<ElabFault>, Memory>
    ensures { IfOk result (λ g. g ≡ lowest (spec.memory_selects names.now pos decl.now (selects all.now))) }
{
    match all {
        [] => Ok(Some(ElabFault::Range(pos))),
        [Select::Bit(_, _), rest @ ..] => vector_fault(alloc, true, decl, rest, names),
        [Select::Part(place, _, _), ..] | [Select::Indexed(place, _, _), ..] => Ok(Some(
            ElabFault::Range(*place),
        )),
    }
}

pub fn object_fault(
    alloc: Global,
    pos: Pos,
    object: &Object,
    all: &[Select],
    names: &Names,
) -> Result<Option<ElabFault>, Memory>
    ensures { IfOk result (λ g. g ≡ lowest (spec.object_selects names.now pos object.now.scalar object.now.decl
        (selects all.now))) }
{
    if object.decl.words.is_none() {
        vector_fault(alloc, !object.scalar, &object.decl, all, names)
    } else {
        memory_fault(alloc, pos, &object.decl, all, names)
    }
}

fn constant_fault(
    alloc: Global,
    may: bool,
    text: &Text,
    value: &Const,
    all: &[Select],
    names: &Names,
) -> Result<Option<ElabFault>, Memory>
    ensures { IfOk result (λ g. g
        ≡ lowest (spec.vector_selects names.now may (constants.vector_of text.now value.now) (selects all.now))) }
{
    match all {
        [] => Ok(None),
        [_, ..] => {
            let decl = vector_of(alloc, text, value)?;
            vector_fault(alloc, may, &decl, all, names)
        }
    }
}

/// What has to be constant has no net and no variable in it.
#[tactic(auto, using(crate::proofs::Lowest::lowest_parts))]
pub(crate) fn read_fault(
    alloc: Global,
    fixed: bool,
    pos: Pos,
    text: &Text,
    meaning: &Meaning,
    all: &[Select],
    names: &Names,
) -> Result<Option<ElabFault>, Memory>
    ensures { IfOk result (λ g. g ≡ lowest (spec.read_refusals names.now fixed pos text.now (seen meaning.now)
        (selects all.now))) }
{
    match meaning {
        Meaning::LoopVariable => Ok(Some(ElabFault::Unknown(text.copied(alloc)?, pos))),
        Meaning::Faulty => Ok(None),
        Meaning::Shapeless => Ok(not_constant_if(fixed, pos)),
        Meaning::Later => Ok(Some(ElabFault::NotConstant(pos))),
        Meaning::Constant(value, selected) => {
            constant_fault(alloc, *selected, text, value, all, names)
        }
        Meaning::Object(object) => {
            let own = object_fault(alloc, pos, object, all, names)?;
            let kind = first_of(
                clock_if(is_clock(object.decl.class), pos),
                not_constant_if(fixed, pos),
            );
            Ok(first_of(kind, own))
        }
    }
}

/// The clock of the design.
pub fn is_clock(class: Class) -> bool
    ensures { result ≡ is_clock_class class }
{
    matches!(class, Class::Clock)
}
