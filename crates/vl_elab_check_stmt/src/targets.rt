//! Where targets of assignments are refused.
ghost use Rattle.std.specs.Prelude.{◌≡◌, List, IfOk};
ghost use Rattle.vl_tree.specs.Expr as tree;
ghost use Rattle.vl_tree.specs.ExprView.{selects, with_select};
ghost use Rattle.vl_tree.specs.Lval.{lvals, named};
ghost use Rattle.vl_size.specs.Divisors.{selects_zero_divisor};
ghost use Rattle.vl_size.specs.Places as places;
ghost use Rattle.vl_mean.specs.Constants.{settled_selects};
ghost use Rattle.vl_elab_spec.specs.Expressions as expressions;
ghost use Rattle.vl_elab_spec.specs.Meanings as meanings;
ghost use Rattle.vl_elab_spec.specs.Refused.{lower_of, lowest};
ghost use Rattle.vl_elab_spec.specs.Statements as spec;
ghost use Rattle.vl_elab_check_stmt.specs.Parts as parts;
ghost use Rattle.vl_elab_scope.specs.Seen.{seen};

use crate::contexts::assigned_in;
use fv_text::{Memory, Pos, Text};
use std::alloc::Global;
use vl_elab_check_expr::{
    Judged, clock_if, closed, divided_by_zero, either, expr_fault_in, first_of, is_clock,
    is_constant, judge_selects, kind_if, name_width, object_fault, plus, vector_fault, vector_of,
};
use vl_elab_scope::{Meaning, Names, own_zero_divisor_of};
use vl_elab_spec::{ElabFault, Role};
use vl_size::Class;
use vl_size::earlier::earlier_place;
use vl_tree::{Expr, Lval, LvalKind, Select};

/// How an assignment assigns: continuously or in a block, and whether its indices and its value have to be constant.
#[derive(Clone, Copy)]
pub struct Assigning {
    pub continuous: bool,
    pub fixed_target: bool,
    pub fixed_value: bool,
}

/// Continuously a net is assigned, and in a block a variable.
fn may_be_assigned(continuous: bool, class: Class) -> bool
    ensures { result ≡ spec.may_be_assigned continuous class }
{
    match class {
        Class::Net => continuous,
        Class::Variable => !continuous,
        Class::Clock | Class::Reset | Class::Input | Class::EachCycle | Class::Once => false,
    }
}

fn is_input(role: Role) -> bool
    ensures { result ≡ meanings.is_input role }
{
    matches!(role, Role::Input)
}

fn assigned_fault(
    alloc: Global,
    continuous: bool,
    pos: Pos,
    text: &Text,
    meaning: &Meaning,
) -> Result<Option<ElabFault>, Memory>
    ensures { IfOk result (λ g. (ns : List meanings.Names)
        → g ≡ lowest (spec.assigned_refusals ns continuous pos text.now (seen meaning.now))) }
{
    match meaning {
        Meaning::LoopVariable | Meaning::Constant(_, _) => kind_if(alloc, true, text, pos),
        Meaning::Faulty | Meaning::Shapeless | Meaning::Later => Ok(None),
        Meaning::Object(object) => object_assigned(
            alloc,
            either(
                is_input(object.role),
                !may_be_assigned(continuous, object.decl.class),
            ),
            object.decl.class,
            pos,
            text,
        ),
    }
}

/// A net or a variable, which may be no target there.
#[tactic(auto, using(vl_elab_check_expr::proofs::Lowest::lowest_parts))]
fn object_assigned(
    alloc: Global,
    is_wrong: bool,
    class: Class,
    pos: Pos,
    text: &Text,
) -> Result<Option<ElabFault>, Memory>
    ensures { IfOk result (λ g. g ≡ lowest (parts.object_assigned is_wrong class pos text.now)) }
{
    let kind = kind_if(alloc, is_wrong, text, pos)?;
    Ok(first_of(clock_if(is_clock(class), pos), kind))
}

fn selected_fault(
    alloc: Global,
    pos: Pos,
    text: &Text,
    meaning: &Meaning,
    all: &[Select],
    names: &Names,
) -> Result<Option<ElabFault>, Memory>
    ensures { IfOk result (λ g. g ≡ lowest (spec.target_selects names.now pos (seen meaning.now)
        (named pos text.now (selects all.now)))) }
{
    match meaning {
        Meaning::Object(object) => object_fault(alloc, pos, object, all, names),
        Meaning::Constant(value, selected) => {
            let decl = vector_of(alloc, text, value)?;
            vector_fault(alloc, *selected, &decl, all, names)
        }
        Meaning::LoopVariable | Meaning::Faulty | Meaning::Shapeless | Meaning::Later => Ok(None),
    }
}

fn select_divisor(alloc: Global, select: &Select, names: &Names) -> Result<Option<Pos>, Memory>
    ensures { IfOk result (λ p. (rest : tree.Selects) →
        selects_zero_divisor (meanings.objects names.now)
        (settled_selects (meanings.constants names.now) (with_select select.now rest))
        ≡ places.earlier_place p (selects_zero_divisor (meanings.objects names.now)
        (settled_selects (meanings.constants names.now) rest))) }
{
    match select {
        Select::Bit(_, index) => own_zero_divisor_of(alloc, index, names),
        Select::Part(_, first, second) | Select::Indexed(_, first, second) => {
            let first = own_zero_divisor_of(alloc, first, names)?;
            let second = own_zero_divisor_of(alloc, second, names)?;
            Ok(earlier_place(first, second))
        }
    }
}

/// The earliest division by 0 in a target's selects.
fn selects_divisor(alloc: Global, all: &[Select], names: &Names) -> Result<Option<Pos>, Memory>
    ensures { IfOk result (λ p. p ≡ selects_zero_divisor (meanings.objects names.now)
        (settled_selects (meanings.constants names.now) (selects all.now))) }
{
    let mut found = None;
    let mut place = all.len();
    while place > 0 {
        place -= 1;
        found = earlier_place(select_divisor(alloc, &all[place], names)?, found);
    }
    Ok(found)
}

/// The refusals of a name's selects, and behind them a division by 0 there.
fn with_division(inner: Option<ElabFault>, place: Option<Pos>) -> Option<ElabFault>
    ensures { result ≡ lower_of inner (lowest (expressions.divided_by_zero place)) }
{
    first_of(inner, divided_by_zero(place))
}

/// Behind a refusal of what its selects have in them, that of a name that some scope declares.
fn named_fault(
    alloc: Global,
    before: Option<ElabFault>,
    pos: Pos,
    text: &Text,
    meaning: &Meaning,
    all: &[Select],
    continuous: bool,
    names: &Names,
) -> Result<Option<ElabFault>, Memory>
    ensures { IfOk result (λ g. g ≡ lower_of
        (lower_of before (lowest (spec.assigned_refusals names.now continuous pos text.now (seen meaning.now))))
        (lowest (spec.target_selects names.now pos (seen meaning.now) (named pos text.now (selects all.now))))) }
{
    let assigned = assigned_fault(alloc, continuous, pos, text, meaning)?;
    let own = first_of(before, assigned);
    let selected = selected_fault(alloc, pos, text, meaning, all, names)?;
    Ok(first_of(own, selected))
}

fn name_target(
    alloc: Global,
    pos: Pos,
    text: &Text,
    all: &[Select],
    continuous: bool,
    fixed: bool,
    names: &Names,
) -> Result<Judged, Memory>
    ensures width { IfOk result (λ j. j.width ≡ spec.target_width names.now (named pos text.now (selects all.now))) }
    ensures fault { IfOk result (λ j. j.fault ≡ lowest (spec.target_refusals names.now continuous fixed
        (named pos text.now (selects all.now)))) }
{
    let place = selects_divisor(alloc, all, names)?;
    match names.meaning(text) {
        None => {
            let unknown = text.copied(alloc)?;
            let inner = judge_selects(alloc, all, either(fixed, false), names)?;
            let divided = with_division(inner, place);
            Ok(closed(
                pos,
                None,
                first_of(divided, Some(ElabFault::Unknown(unknown, pos))),
            ))
        }
        Some(meaning) => {
            let width = name_width(alloc, text, meaning, all, names)?;
            let inner = judge_selects(alloc, all, either(fixed, is_constant(meaning)), names)?;
            let divided = with_division(inner, place);
            let fault = named_fault(alloc, divided, pos, text, meaning, all, continuous, names)?;
            Ok(closed(pos, width, fault))
        }
    }
}

/// What is found in a target: its width without a limit, and which of its refusals is answered. `continuous`: whether
/// it is assigned continuously; `fixed`: whether its indices have to be constant.
#[cycle(target)]
#[tactic(auto, using(vl_tree::specs::LvalFalls::parts_fall))]
fn judge_target(
    alloc: Global,
    target: &Lval,
    continuous: bool,
    fixed: bool,
    names: &Names,
) -> Result<Judged, Memory>
    ensures width { IfOk result (λ j. j.width ≡ spec.target_width names.now target.now) }
    ensures fault { IfOk result (λ j. j.fault ≡ parts.target_fault names.now continuous fixed target.now) }
{
    match &target.kind {
        LvalKind::Name(text, all) => name_target(
            alloc,
            target.pos,
            text,
            all.as_slice(),
            continuous,
            fixed,
            names,
        ),
        LvalKind::Concat(all) => {
            let found = judge_targets(alloc, all.as_slice(), continuous, fixed, names)?;
            Ok(closed(target.pos, found.width, found.fault))
        }
    }
}

#[cycle(target)]
#[tactic(auto, using(crate::proofs::TargetParts::steps))]
fn judge_targets(
    alloc: Global,
    all: &[Lval],
    continuous: bool,
    fixed: bool,
    names: &Names,
) -> Result<Judged, Memory>
    ensures width { IfOk result (λ j. j.width ≡ spec.targets_width names.now (lvals all.now)) }
    ensures fault { IfOk result (λ j. j.fault ≡ parts.targets_fault names.now continuous fixed (lvals all.now)) }
{
    let mut width = Some(0);
    let mut fault = None;
    let mut place = all.len();
    while place > 0 {
        place -= 1;
        let found = judge_target(alloc, &all[place], continuous, fixed, names)?;
        width = plus(found.width, width);
        fault = first_of(found.fault, fault);
    }
    Ok(Judged { width, fault })
}

/// Of all refusals of a target the one with the lowest number, and of one number the one at the earliest place. None
/// exactly where it isn't refused.
#[tactic(auto, using(crate::proofs::TargetParts::same_target))]
pub fn target_fault(
    alloc: Global,
    target: &Lval,
    continuous: bool,
    fixed: bool,
    names: &Names,
) -> Result<Option<ElabFault>, Memory>
    ensures { IfOk result (λ g. g ≡ lowest (spec.target_refusals names.now continuous fixed target.now)) }
{
    let found = judge_target(alloc, target, continuous, fixed, names)?;
    Ok(found.fault)
}

/// A target, and a value that is assigned to it.
fn with_value(
    alloc: Global,
    found: Judged,
    value: &Expr,
    fixed: bool,
    names: &Names,
) -> Result<Option<ElabFault>, Memory>
    ensures { IfOk result (λ g. g ≡ lower_of found.fault (lowest (expressions.expr_refusals names.now fixed
        (spec.assigned_in names.now found.width value.now) value.now))) }
{
    let context = assigned_in(alloc, found.width, value, names)?;
    let own = expr_fault_in(alloc, value, fixed, context, names)?;
    Ok(first_of(found.fault, own))
}

/// The same of an assignment: of its target, and of its value, which has the larger of both sizes.
pub fn assignment_fault(
    alloc: Global,
    target: &Lval,
    value: &Expr,
    how: Assigning,
    names: &Names,
) -> Result<Option<ElabFault>, Memory>
    ensures { IfOk result (λ g. g ≡ lowest (spec.assignment_refusals names.now how.continuous how.fixed_target
        how.fixed_value target.now value.now)) }
{
    let found = judge_target(alloc, target, how.continuous, how.fixed_target, names)?;
    with_value(alloc, found, value, how.fixed_value, names)
}

/// The same of a value that stands in the declaration of a name, and is assigned to it.
pub fn declared_value_fault(
    alloc: Global,
    pos: Pos,
    text: &Text,
    value: &Expr,
    how: Assigning,
    names: &Names,
) -> Result<Option<ElabFault>, Memory>
    ensures { IfOk result (λ g. g ≡ lowest (spec.assignment_refusals names.now how.continuous how.fixed_target
        how.fixed_value (named pos text.now tree.whole) value.now)) }
{
    let found = name_target(
        alloc,
        pos,
        text,
        &[],
        how.continuous,
        how.fixed_target,
        names,
    )?;
    with_value(alloc, found, value, how.fixed_value, names)
}
