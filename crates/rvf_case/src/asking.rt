//! Which questions are asked of a configuration.

ghost use Rattle.std.specs.Prelude.{◌≡◌, ◌==◌, ◌&&◌, ◌∷◌, ◌++◌, [], length, map, if◌then◌else◌, IfOk, OnOk, true};
ghost use Rattle.std.specs.List.{list_any};
ghost use Rattle.ck_cfg.specs.Checks.{is_named};
ghost use Rattle.ck_ask.specs.declared.question.Question.TheVariants as question;
ghost use Rattle.rvf_case.specs.Askings.{asking_seen, has_check};
ghost use Rattle.rvf_case.specs.Steps.{Finds, IsRefusedName};
ghost use Rattle.rvf_case.specs.Texts.{of_one_cycle, only_named, questions_of};

use crate::refusal::Refusal;
use crate::steps::Steps;
use ck_ask::{Question, ZbCheck, zb_checks};
use ck_cfg::{Check, Config, checks};
use ck_cover::{Target, targets};
use ck_induct::{in_cycle, is_of_one_cycle};
use fv_text::{List, Memory, Text};
use std::alloc::Global;

/// What is asked of a configuration.
#[derive(Debug, Clone, Copy)]
pub enum Asking<'a> {
    /// Whether each of its checks holds.
    Checks,
    /// Whether each target of its checks is reached.
    Targets,
    /// Whether each row of Zba and Zbs does what it says, where its checks of instructions are made.
    Zb,
    /// Whether each of its checks that look at one cycle holds in runs of every length, by so many steps.
    Lengths(Steps),
    /// Whether the check with this name holds.
    One(&'a [u8]),
}

/// A question for each of these checks.
fn of_checks(alloc: Global, checks: List<Check>) -> Result<List<Question>, Memory>
    ensures { IfOk result (λ made. made ≡ map (λ x. question.Check x) checks) }
{
    let mut made = List::new(alloc);
    for check in checks.into_vec() {
        made.push(Question::Check(check))?;
    }
    Ok(made)
}

/// Adds a question for a check, where it is the first that has the name.
fn add_named(made: &mut List<Question>, check: Check, name: &[u8]) -> Result<(), Memory>
    ensures { OnOk result (made.new ≡ (if length made.old == 0 && is_named name.now check
        then made.old ++ question.Check check ∷ [] else made.old)) }
{
    if made.len() == 0 && check.name.bytes() == name {
        made.push(Question::Check(check))?;
    }
    Ok(())
}

/// A question for the first of these checks with a name, if there is one.
fn of_named(alloc: Global, name: &[u8], checks: List<Check>) -> Result<List<Question>, Memory>
    ensures { IfOk result (λ made. made ≡ map (λ x. question.Check x) (only_named name.now checks)) }
{
    let mut made = List::new(alloc);
    for check in checks.into_vec() {
        add_named(&mut made, check, name)?;
    }
    Ok(made)
}

/// Adds a question for a check, in this cycle, where it looks at one cycle alone.
fn add_in_cycle(made: &mut List<Question>, check: Check, cycle: u32) -> Result<(), Memory>
    ensures { OnOk result (made.new ≡ made.old ++ map (λ x. question.Check x) (of_one_cycle cycle (check ∷ []))) }
{
    if is_of_one_cycle(check.kind) {
        made.push(Question::Check(in_cycle(check, cycle)))?;
    }
    Ok(())
}

/// A question for each of these checks that look at one cycle alone, in this cycle.
fn of_lengths(alloc: Global, checks: List<Check>, cycle: u32) -> Result<List<Question>, Memory>
    ensures { IfOk result (λ made. made ≡ map (λ x. question.Check x) (of_one_cycle cycle checks)) }
{
    let mut made = List::new(alloc);
    for check in checks.into_vec() {
        add_in_cycle(&mut made, check, cycle)?;
    }
    Ok(made)
}

/// A question for each of these targets.
fn of_targets(alloc: Global, targets: List<Target>) -> Result<List<Question>, Memory>
    ensures { IfOk result (λ made. made ≡ map (λ t. question.Target t) targets) }
{
    let mut made = List::new(alloc);
    for target in targets.into_vec() {
        made.push(Question::Target(target))?;
    }
    Ok(made)
}

/// A question for each of these checks of Zba and Zbs.
fn of_zb_checks(alloc: Global, checks: List<ZbCheck>) -> Result<List<Question>, Memory>
    ensures { IfOk result (λ made. made ≡ map (λ z. question.Zb z) checks) }
{
    let mut made = List::new(alloc);
    for check in checks.into_vec() {
        made.push(Question::Zb(check))?;
    }
    Ok(made)
}

/// The questions that are asked of a configuration, in their order.
pub(crate) fn questions_of(
    alloc: Global,
    asking: Asking<'_>,
    config: &Config,
) -> Result<List<Question>, Memory>
    ensures { IfOk result (λ made. made ≡ questions_of (asking_seen asking.entry) config.now) }
{
    let checks = checks(alloc, config)?;
    match asking {
        Asking::Checks => of_checks(alloc, checks),
        Asking::Targets => of_targets(alloc, targets(alloc, checks.as_slice())?),
        Asking::Zb => of_zb_checks(alloc, zb_checks(alloc, checks.as_slice(), config.nret)?),
        Asking::Lengths(steps) => of_lengths(alloc, checks, steps.number),
        Asking::One(name) => of_named(alloc, name, checks),
    }
}

/// Whether one of these checks has this name.
fn is_in(name: &[u8], checks: &[Check]) -> bool
    ensures { result ≡ list_any (is_named name.now) checks.now }
{
    checks.iter().any(|check| check.name.bytes() == name)
}

/// Whether a configuration has a check with this name.
fn has_check(alloc: Global, name: &[u8], config: &Config) -> Result<bool, Memory>
    ensures { IfOk result (λ has. has ≡ has_check name.now config.now) }
{
    let all = checks(alloc, config)?;
    Ok(is_in(name, all.as_slice()))
}

/// The refusal of a check that isn't there.
fn refused(alloc: Global, name: &[u8]) -> Refusal
    ensures { IsRefusedName result name.now }
{
    match Text::from_bytes(alloc, name) {
        Ok(name) => Refusal::NoCheck(name),
        Err(Memory) => Refusal::Memory,
    }
}

/// That what is asked of a configuration is there: a check that is asked for by its name.
pub(crate) fn find_asked(alloc: Global, asking: Asking<'_>, config: &Config) -> Result<(), Refusal>
    ensures { Finds (asking_seen asking.entry) config.now result }
{
    match asking {
        Asking::Checks | Asking::Targets | Asking::Zb | Asking::Lengths(_) => Ok(()),
        Asking::One(name) => {
            if has_check(alloc, name, config)? {
                Ok(())
            } else {
                Err(refused(alloc, name))
            }
        }
    }
}
