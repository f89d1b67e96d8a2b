//! Where declared names and ports are refused.
ghost use Rattle.std.specs.Prelude.{◌≡◌, IfOk};
ghost use Rattle.vl_elab_spec.specs.Items as items;
ghost use Rattle.vl_elab_spec.specs.Meanings as meanings;
ghost use Rattle.vl_elab_spec.specs.Refused.{lowest};
ghost use Rattle.vl_elab_check_item.specs.ItemParts as spec;

use crate::ranges::{range_fault, width_fault};
use fv_text::{Memory, Pos, Text};
use std::alloc::Global;
use vl_elab_check_expr::{first_of, own_fault, range_if, twice_if};
use vl_elab_check_stmt::{Assigning, declared_value_fault};
use vl_elab_scope::Names;
use vl_elab_spec::ElabFault;
use vl_size::Class;
use vl_tree::{DeclaredName, Expr, FullPort, NetKind, Range};

fn is_net(kind: NetKind) -> bool
    ensures { result ≡ items.is_net kind }
{
    matches!(kind, NetKind::Wire)
}

/// The value of a net is assigned to it continuously, that of a variable is constant.
pub fn given_value(
    alloc: Global,
    pos: Pos,
    kind: NetKind,
    text: &Text,
    value: &Option<Expr>,
    names: &Names,
) -> Result<Option<ElabFault>, Memory>
    ensures { IfOk result (λ g. g ≡ lowest (items.given_value names.now pos kind text.now value.now)) }
{
    match value {
        None => Ok(None),
        Some(value) => {
            let how = Assigning {
                continuous: is_net(kind),
                fixed_target: true,
                fixed_value: !is_net(kind),
            };
            declared_value_fault(alloc, pos, text, value, how, names)
        }
    }
}

/// A memory has no value: one that is given is judged by itself.
fn declared_value(
    alloc: Global,
    kind: NetKind,
    name: &DeclaredName,
    names: &Names,
) -> Result<Option<ElabFault>, Memory>
    ensures { IfOk result (λ g. g ≡ lowest (items.declared_value names.now name.now.pos kind name.now.name
        name.now.words name.now.value)) }
{
    if name.words.is_none() {
        return given_value(alloc, name.pos, kind, &name.name, &name.value, names);
    }
    match &name.value {
        None => Ok(None),
        Some(value) => own_fault(alloc, value, !is_net(kind), names),
    }
}

/// A memory is of variables, without a value.
fn may_have_words(class: Class, words: &Option<Range>, value: &Option<Expr>) -> bool
    ensures { result ≡ meanings.may_have_words class words.now value.now }
{
    if words.is_none() {
        return true;
    }
    match class {
        Class::Variable => value.is_none(),
        Class::Clock | Class::Reset | Class::Input | Class::EachCycle | Class::Once | Class::Net =>
            false,
    }
}

#[tactic(auto, using(vl_elab_check_expr::proofs::Lowest::lowest_parts))]
fn name_fault(
    alloc: Global,
    kind: NetKind,
    class: Class,
    shape: &Option<Range>,
    name: &DeclaredName,
    names: &Names,
) -> Result<Option<ElabFault>, Memory>
    ensures { IfOk result (λ g. g ≡ lowest (items.name_refusals names.now kind class shape.now name.now)) }
{
    let words = range_fault(alloc, &name.words, names)?;
    let width = width_fault(alloc, name.pos, shape, names)?;
    let memory = range_if(!may_have_words(class, &name.words, &name.value), name.pos);
    let value = declared_value(alloc, kind, name, names)?;
    Ok(first_of(first_of(first_of(words, width), memory), value))
}

fn judge_names(
    alloc: Global,
    kind: NetKind,
    class: Class,
    shape: &Option<Range>,
    all: &[DeclaredName],
    names: &Names,
) -> Result<Option<ElabFault>, Memory>
    ensures { IfOk result (λ g. g ≡ spec.names_fault names.now kind class shape.now all.now) }
{
    let mut fault = None;
    let mut place = all.len();
    while place > 0 {
        place -= 1;
        let found = name_fault(alloc, kind, class, shape, &all[place], names)?;
        fault = first_of(found, fault);
    }
    Ok(fault)
}

/// Of all refusals of declared names, but for names that stand twice, the one with the lowest number, and of one number
/// the one at the earliest place. None exactly where none is refused. `class`: of all of them; `shape`: what stands
/// before them.
#[tactic(auto, using(crate::proofs::Lists::same_names))]
pub fn names_fault(
    alloc: Global,
    kind: NetKind,
    class: Class,
    shape: &Option<Range>,
    all: &[DeclaredName],
    names: &Names,
) -> Result<Option<ElabFault>, Memory>
    ensures { IfOk result (λ g. g ≡ lowest (items.names_refusals names.now kind class shape.now all.now)) }
{
    judge_names(alloc, kind, class, shape, all, names)
}

fn port_net(kind: Option<NetKind>) -> NetKind
    ensures { result ≡ items.port_net kind }
{
    match kind {
        None => NetKind::Wire,
        Some(kind) => kind,
    }
}

/// The same of a port, at a place. `is_twice`: whether its name stands before it in its module.
#[tactic(auto, using(vl_elab_check_expr::proofs::Lowest::lowest_parts))]
pub fn port_fault(
    alloc: Global,
    pos: Pos,
    port: &FullPort,
    is_twice: bool,
    names: &Names,
) -> Result<Option<ElabFault>, Memory>
    ensures { IfOk result (λ g. g ≡ lowest (spec.port_parts names.now is_twice pos port.now)) }
{
    let twice = twice_if(alloc, is_twice, &port.name, pos)?;
    let range = range_fault(alloc, &port.shape.range, names)?;
    let width = width_fault(alloc, pos, &port.shape.range, names)?;
    let value = given_value(
        alloc,
        pos,
        port_net(port.net),
        &port.name,
        &port.value,
        names,
    )?;
    Ok(first_of(first_of(first_of(twice, range), width), value))
}
