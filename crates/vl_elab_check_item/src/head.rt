//! Where the head of a generate loop is refused: with all its turns.
ghost use Rattle.std.specs.Prelude.{◌≡◌, ◌++◌, List, true, None, IfOk, OnOk, OnErr};
ghost use Rattle.std.specs.Prelude.{◌&&◌, if◌then◌else◌, is_none};
ghost use Rattle.vl_mean.specs.Walk.{Place, most_turns};
ghost use Rattle.vl_elab_spec.specs.Expressions as expressions;
ghost use Rattle.vl_elab_spec.specs.Items as items;
ghost use Rattle.vl_elab_spec.specs.Meanings as meanings;
ghost use Rattle.vl_elab_spec.specs.Refused.{lower_of, lowest};
ghost use Rattle.vl_elab_spec.specs.declared.elab_fault.ElabFault.TheVariants as f;
ghost use Rattle.vl_elab_scope.specs.Seen.{seen_or};
ghost use Rattle.std.specs.Option.{option_copied};
ghost use Rattle.vl_elab_scope.specs.Alike.{Alike};
ghost use Rattle.vl_elab_const.specs.Numbers as numbers_spec;
ghost use Rattle.vl_elab_check_item.specs.TurnParts as spec;
ghost use Rattle.vl_elab_check_item.specs.declared.head.Variable.TheVariants as v;

use crate::assigned::genvar_fault;
use crate::turn::{MOST_TURNS, enter_turn};
use fv_text::{Memory, Pos, Text};
use std::alloc::Global;
use vl_elab_check_expr::{expr_fault, first_of, own_fault};
use vl_elab_const::{genvar_value, is_true_in};
use vl_elab_scope::{Level, Meaning, Names, context_of};
use vl_elab_spec::ElabFault;
use vl_mean::Const;
use vl_tree::{Expr, LoopHead};

/// What is found of a turn: which of its refusals is answered, and the value of the next turn. None exactly where it
/// leads to none.
#[derive(Drop)]
struct Found {
    fault: Option<ElabFault>,
    next: Option<Const>,
}

/// Whether an expression has a value. What isn't refused has one, unless it names a constant whose own declaration is
/// refused.
pub fn has_value(alloc: Global, expr: &Expr, names: &Names) -> Result<bool, Memory>
    ensures { IfOk result (λ b. b ≡ items.has_value names.now expr.now) }
{
    let context = context_of(alloc, expr, names)?;
    Ok(context.size.is_some())
}

/// Whether the condition has a value and holds.
fn holds(alloc: Global, head: &LoopHead, names: &Names, numbers: &Names) -> Result<bool, Memory>
    ensures { IfOk result (λ b. b ≡ spec.holds names.now numbers.now head.now) }
{
    let valued = has_value(alloc, &head.condition, names)?;
    if valued {
        is_true_in(alloc, &head.condition, numbers)
    } else {
        Ok(false)
    }
}

/// Whether a turn begins, of whose condition this is answered. What is refused has no value.
fn begins(
    alloc: Global,
    own: &Option<ElabFault>,
    head: &LoopHead,
    names: &Names,
    numbers: &Names,
) -> Result<bool, Memory>
    ensures { IfOk result (λ b. b ≡ (is_none own.now && spec.holds names.now numbers.now head.now)) }
{
    if own.is_some() {
        return Ok(false);
    }
    holds(alloc, head, names, numbers)
}

/// The value of the turn behind one whose step isn't refused. None exactly where the step has none.
fn behind(
    alloc: Global,
    head: &LoopHead,
    names: &Names,
    numbers: &Names,
) -> Result<Option<Const>, Memory>
    ensures { IfOk result (λ o. o ≡ (if items.has_value names.now head.now.next
        then Some (numbers_spec.genvar_number numbers.now head.now.next) else None)) }
{
    let valued = has_value(alloc, &head.next, names)?;
    if valued {
        Ok(Some(genvar_value(alloc, &head.next, numbers)?))
    } else {
        Ok(None)
    }
}

/// A turn that begins leads to the next one, where its step isn't refused.
fn begun(
    alloc: Global,
    own: Option<ElabFault>,
    head: &LoopHead,
    names: &Names,
    numbers: &Names,
) -> Result<Found, Memory>
    ensures fault { IfOk result (λ t. t.fault
        ≡ lower_of own (lowest (items.genvar_refusals names.now head.now.next))) }
    ensures next { IfOk result (λ t. t.next
        ≡ (if is_none (lowest (items.genvar_refusals names.now head.now.next))
        && items.has_value names.now head.now.next
        then Some (numbers_spec.genvar_number numbers.now head.now.next) else None)) }
{
    let step = genvar_fault(alloc, &head.next, names)?;
    if step.is_some() {
        return Ok(Found {
            fault: first_of(own, step),
            next: None,
        });
    }
    let next = behind(alloc, head, names, numbers)?;
    Ok(Found { fault: own, next })
}

/// In the scope of the turn.
fn judge_turn(
    alloc: Global,
    head: &LoopHead,
    names: &Names,
    numbers: &Names,
) -> Result<Found, Memory>
    ensures fault { IfOk result (λ t. t.fault ≡ spec.turn_fault names.now numbers.now head.now) }
    ensures next { IfOk result (λ t. t.next ≡ (if spec.leads_on names.now numbers.now head.now
        then Some (numbers_spec.genvar_number numbers.now head.now.next) else None)) }
{
    let own = own_fault(alloc, &head.condition, true, names)?;
    let begins = begins(alloc, &own, head, names, numbers)?;
    if begins {
        begun(alloc, own, head, names, numbers)
    } else {
        Ok(Found {
            fault: own,
            next: None,
        })
    }
}

fn turn(
    alloc: Global,
    head: &LoopHead,
    value: Const,
    names: &mut Names,
    numbers: &mut Names,
) -> Result<Found, Memory>
    ensures names { OnOk result (names.new ≡ names.old) }
    ensures numbers { OnOk result (numbers.new ≡ numbers.old) }
    ensures fault { IfOk result (λ t. t.fault ≡ spec.turn_fault (spec.in_turn head.now.variable value names.old)
        (spec.in_turn head.now.variable value numbers.old) head.now) }
    ensures next { IfOk result (λ t. let inner = spec.in_turn head.now.variable value numbers.old in t.next
        ≡ (if spec.leads_on (spec.in_turn head.now.variable value names.old) inner head.now
        then Some (numbers_spec.genvar_number inner head.now.next) else None)) }
{
    enter_turn(alloc, &head.variable, value, names)?;
    enter_turn(alloc, &head.variable, value, numbers)?;
    let found = judge_turn(alloc, head, names, numbers)?;
    names.leave();
    numbers.leave();
    Ok(found)
}

fn loop_if(test: bool, pos: Pos) -> Option<ElabFault>
    ensures { result ≡ lowest (expressions.refused_if test (f.GenLoop pos)) }
{
    if test {
        Some(ElabFault::GenLoop(pos))
    } else {
        None
    }
}

fn judge_last(
    alloc: Global,
    pos: Pos,
    head: &LoopHead,
    names: &Names,
    numbers: &Names,
) -> Result<Option<ElabFault>, Memory>
    ensures { IfOk result (λ g. g ≡ spec.last_fault names.now numbers.now head.now pos) }
{
    let own = own_fault(alloc, &head.condition, true, names)?;
    let begins = begins(alloc, &own, head, names, numbers)?;
    Ok(first_of(own, loop_if(begins, pos)))
}

/// A turn behind the last one.
fn last_turn(
    alloc: Global,
    pos: Pos,
    head: &LoopHead,
    value: Const,
    names: &mut Names,
    numbers: &mut Names,
) -> Result<Option<ElabFault>, Memory>
    ensures names { OnOk result (names.new ≡ names.old) }
    ensures numbers { OnOk result (numbers.new ≡ numbers.old) }
    ensures fault { IfOk result (λ g. g ≡ spec.turns_fault 0 names.old numbers.old head.now pos value) }
{
    enter_turn(alloc, &head.variable, value, names)?;
    enter_turn(alloc, &head.variable, value, numbers)?;
    let found = judge_last(alloc, pos, head, names, numbers)?;
    names.leave();
    numbers.leave();
    Ok(found)
}

/// All turns, from the one with this value on.
fn turns(
    alloc: Global,
    pos: Pos,
    head: &LoopHead,
    start: Const,
    names: &mut Names,
    numbers: &mut Names,
) -> Result<Option<ElabFault>, Memory>
    ensures names { OnOk result (names.new ≡ names.old) }
    ensures numbers { OnOk result (numbers.new ≡ numbers.old) }
    ensures fault { IfOk result (λ g. g ≡ spec.turns_fault most_turns names.old numbers.old head.now pos start) }
{
    let mut fault = None;
    let mut value = start;
    let mut left = MOST_TURNS;
    while left > 0 {
        let found = turn(alloc, head, value, names, numbers)?;
        fault = first_of(fault, found.fault);
        match found.next {
            None => return Ok(fault),
            Some(next) => {
                value = next;
                left -= 1;
            }
        }
    }
    let last = last_turn(alloc, pos, head, value, names, numbers)?;
    Ok(first_of(fault, last))
}

fn first_begins(
    alloc: Global,
    head: &LoopHead,
    names: &Names,
    numbers: &Names,
) -> Result<bool, Memory>
    ensures { IfOk result (λ b. b ≡ spec.begins names.now numbers.now head.now) }
{
    let own = own_fault(alloc, &head.condition, true, names)?;
    begins(alloc, &own, head, names, numbers)
}

/// Whether the turn with this value begins.
fn begins_at(
    alloc: Global,
    head: &LoopHead,
    value: Const,
    names: &mut Names,
    numbers: &mut Names,
) -> Result<bool, Memory>
    ensures names { OnOk result (names.new ≡ names.old) }
    ensures numbers { OnOk result (numbers.new ≡ numbers.old) }
    ensures begins { IfOk result (λ b. b ≡ spec.begins (spec.in_turn head.now.variable value names.old)
        (spec.in_turn head.now.variable value numbers.old) head.now) }
{
    enter_turn(alloc, &head.variable, value, names)?;
    enter_turn(alloc, &head.variable, value, numbers)?;
    let begins = first_begins(alloc, head, names, numbers)?;
    names.leave();
    numbers.leave();
    Ok(begins)
}

/// Enters a scope in which the loop's variable has no value.
fn enter_unstarted(alloc: Global, variable: &Text, names: &mut Names) -> Result<(), Memory>
    ensures ok { OnOk result (names.new ≡ items.without_value variable.now names.old) }
    ensures err { OnErr result (names.new ≡ names.old) }
{
    let mut level = Level::new(alloc);
    level.add(variable.copied(alloc)?, Meaning::Faulty)?;
    names.enter(level)
}

/// The step of a loop of which no turn begins.
fn idle_step(
    alloc: Global,
    head: &LoopHead,
    start: Const,
    names: &mut Names,
) -> Result<Option<ElabFault>, Memory>
    ensures names { OnOk result (names.new ≡ names.old) }
    ensures fault { IfOk result (λ g. g
        ≡ lowest (items.genvar_refusals (spec.in_turn head.now.variable start names.old) head.now.next)) }
{
    enter_turn(alloc, &head.variable, start, names)?;
    let found = genvar_fault(alloc, &head.next, names)?;
    names.leave();
    Ok(found)
}

/// Where no turn begins the step is judged once.
fn idle_fault(
    alloc: Global,
    head: &LoopHead,
    start: Const,
    names: &mut Names,
    numbers: &mut Names,
) -> Result<Option<ElabFault>, Memory>
    ensures names { OnOk result (names.new ≡ names.old) }
    ensures numbers { OnOk result (numbers.new ≡ numbers.old) }
    ensures fault { IfOk result (λ g. g ≡ spec.idle_fault names.old numbers.old head.now start) }
{
    let begins = begins_at(alloc, head, start, names, numbers)?;
    if begins {
        return Ok(None);
    }
    idle_step(alloc, head, start, names)
}

/// What a head's variable is.
#[derive(Clone, Copy)]
enum Variable {
    Undeclared,
    Genvar,
    Other,
}

fn variable_of(meaning: Option<&Meaning>) -> Variable
    ensures { result ≡ spec.variable_of (seen_or (option_copied meaning.entry)) }
{
    match meaning {
        None => Variable::Undeclared,
        Some(Meaning::LoopVariable) => Variable::Genvar,
        Some(
            Meaning::Constant(_, _)
            | Meaning::Object(_)
            | Meaning::Faulty
            | Meaning::Shapeless
            | Meaning::Later,
        ) => Variable::Other,
    }
}

fn is_unknown(fault: &ElabFault) -> bool
    ensures { result ≡ items.is_unknown fault.now }
{
    matches!(fault, ElabFault::Unknown(_, _))
}

/// A name that no scope declares.
fn if_unknown(fault: Option<ElabFault>) -> Option<ElabFault>
    ensures { result ≡ spec.if_unknown fault }
{
    match fault {
        None => None,
        Some(fault) => if is_unknown(&fault) {
            Some(fault)
        } else {
            None
        },
    }
}

/// From a start value on.
fn begun_head(
    alloc: Global,
    pos: Pos,
    head: &LoopHead,
    names: &mut Names,
    numbers: &mut Names,
) -> Result<Option<ElabFault>, Memory>
    ensures names { OnOk result (names.new ≡ names.old) }
    ensures numbers { OnOk result (numbers.new ≡ numbers.old) }
    ensures fault { IfOk result (λ g. g ≡ spec.begun_fault names.old numbers.old head.now pos
        (numbers_spec.genvar_number numbers.old head.now.start)) }
{
    let start = genvar_value(alloc, &head.start, numbers)?;
    let idle = idle_fault(alloc, head, start, names, numbers)?;
    let all = turns(alloc, pos, head, start, names, numbers)?;
    Ok(first_of(idle, all))
}

#[tactic(auto, using(vl_elab_check_expr::proofs::Lowest::lowest_parts))]
fn judge_unstarted(
    alloc: Global,
    head: &LoopHead,
    names: &Names,
) -> Result<Option<ElabFault>, Memory>
    ensures { IfOk result (λ g. g ≡ lowest (expressions.own_refusals names.now true head.now.condition
        ++ items.genvar_refusals names.now head.now.next)) }
{
    let own = own_fault(alloc, &head.condition, true, names)?;
    let step = genvar_fault(alloc, &head.next, names)?;
    Ok(first_of(own, step))
}

/// Behind a start that has no value: the condition and the step, over a variable without a value.
fn unstarted_head(
    alloc: Global,
    head: &LoopHead,
    names: &mut Names,
) -> Result<Option<ElabFault>, Memory>
    ensures names { OnOk result (names.new ≡ names.old) }
    ensures fault { IfOk result (λ g. g ≡ lowest (items.without_start head.now names.old)) }
{
    enter_unstarted(alloc, &head.variable, names)?;
    let found = judge_unstarted(alloc, head, names)?;
    names.leave();
    Ok(found)
}

/// Whether the start has a value, of which this is answered.
fn starts(
    alloc: Global,
    own: &Option<ElabFault>,
    head: &LoopHead,
    names: &Names,
) -> Result<bool, Memory>
    ensures { IfOk result (λ b. b ≡ (is_none own.now && items.has_value names.now head.now.start)) }
{
    if own.is_some() {
        return Ok(false);
    }
    has_value(alloc, &head.start, names)
}

/// Over a genvar, and none of a loop around.
fn genvar_head(
    alloc: Global,
    pos: Pos,
    head: &LoopHead,
    names: &mut Names,
    numbers: &mut Names,
) -> Result<Option<ElabFault>, Memory>
    ensures names { OnOk result (names.new ≡ names.old) }
    ensures numbers { OnOk result (numbers.new ≡ numbers.old) }
    ensures fault { IfOk result (λ g. g ≡ spec.head_fault names.old numbers.old pos head.now v.Genvar) }
{
    let own = genvar_fault(alloc, &head.start, names)?;
    let starts = starts(alloc, &own, head, names)?;
    if starts {
        begun_head(alloc, pos, head, names, numbers)
    } else {
        let rest = unstarted_head(alloc, head, names)?;
        Ok(first_of(own, rest))
    }
}

/// The names in a head over what is no genvar of its own.
#[tactic(auto, using(vl_elab_check_expr::proofs::Lowest::lowest_parts))]
fn all_names_fault(
    alloc: Global,
    head: &LoopHead,
    names: &Names,
) -> Result<Option<ElabFault>, Memory>
    ensures { IfOk result (λ g. g ≡ lowest (expressions.refusals names.now true head.now.start
        ++ expressions.refusals names.now true head.now.condition
        ++ expressions.refusals names.now true head.now.next)) }
{
    let start = expr_fault(alloc, &head.start, true, names)?;
    let condition = expr_fault(alloc, &head.condition, true, names)?;
    let next = expr_fault(alloc, &head.next, true, names)?;
    Ok(first_of(first_of(start, condition), next))
}

/// Over a name that is no genvar, or that of a loop around.
fn other_head(
    alloc: Global,
    pos: Pos,
    head: &LoopHead,
    names: &Names,
) -> Result<Option<ElabFault>, Memory>
    ensures { IfOk result (λ g. (numbers : List meanings.Names)
        → g ≡ spec.head_fault names.now numbers pos head.now v.Other) }
{
    let inner = all_names_fault(alloc, head, names)?;
    let kind = ElabFault::Kind(head.variable.copied(alloc)?, pos);
    Ok(first_of(Some(kind), if_unknown(inner)))
}

fn judge_head(
    alloc: Global,
    pos: Pos,
    head: &LoopHead,
    names: &mut Names,
    numbers: &mut Names,
) -> Result<Option<ElabFault>, Memory>
    ensures names { OnOk result (names.new ≡ names.old) }
    ensures numbers { OnOk result (numbers.new ≡ numbers.old) }
    ensures fault { IfOk result (λ g. g ≡ spec.head_fault names.old numbers.old pos head.now
        (spec.variable_of (meanings.meaning_in names.old head.now.variable))) }
{
    match variable_of(names.meaning(&head.variable)) {
        Variable::Genvar => genvar_head(alloc, pos, head, names, numbers),
        Variable::Undeclared => Ok(Some(ElabFault::Unknown(head.variable.copied(alloc)?, pos))),
        Variable::Other => other_head(alloc, pos, head, names),
    }
}

/// Of all refusals of a loop's head, with those of all its turns, the one with the lowest number, and of one number
/// the one at the earliest place. None exactly where it isn't refused. `names`: what names mean at the loop;
/// `numbers`: the numbers that constants have there by the definitions, refused or not.
pub fn head_fault(
    alloc: Global,
    pos: Pos,
    head: &LoopHead,
    names: &mut Names,
    numbers: &mut Names,
) -> Result<Option<ElabFault>, Memory>
    ensures names { OnOk result (names.new ≡ names.old) }
    ensures numbers { OnOk result (numbers.new ≡ numbers.old) }
    ensures fault { IfOk result (λ g. (at : Place) → Alike names.old (meanings.meanings_at at)
        → numbers_spec.HaveNumbers numbers.old at.scopes → g ≡ lowest (items.head_refusals at pos head.now
        (meanings.meaning_in (meanings.meanings_at at) head.now.variable))) }
{
    judge_head(alloc, pos, head, names, numbers)
}
