//! What the refusals of each part say.

ghost use Rattle.std.specs.Prelude.{◌≡◌, ◌∷◌, [], decimal, IfOk};
ghost use Rattle.rvf_report.specs.Faults as faults;
ghost use Rattle.rvf_report.specs.Printed as printed;

use crate::says::{Says, place_text, place_texts};
use crate::word::{copies, number_alone, one_value, push_number};
use fv_text::{List, Memory, Pos, Text};
use rvfi_port::PortFault;
use std::alloc::Global;
use vl_elab_spec::ElabFault;
use vl_flow::FlowFault;
use vl_parse::ParseFault;
use vl_prep::PrepFault;
use vl_token::LexFault;

/// A refusal that says nothing but its number and its place.
fn bare(alloc: Global, number: u32, place: Option<Pos>) -> Says
    ensures { printed.says result.number result.place result.values ≡ printed.says number place [] }
{
    Says {
        number,
        place,
        values: List::new(alloc),
    }
}

/// A refusal with a text as its only value.
fn named(alloc: Global, number: u32, place: Option<Pos>, value: &[u8]) -> Result<Says, Memory>
    ensures { IfOk result (λ made. printed.says made.number made.place made.values
        ≡ printed.says number place (value.now ∷ [])) }
{
    Ok(Says {
        number,
        place,
        values: one_value(alloc, value)?,
    })
}

/// A refusal with a number as its only value.
fn numbered(alloc: Global, number: u32, place: Option<Pos>, value: u64) -> Result<Says, Memory>
    ensures { IfOk result (λ made. printed.says made.number made.place made.values
        ≡ printed.says number place (decimal value ∷ [])) }
{
    Ok(Says {
        number,
        place,
        values: number_alone(alloc, value)?,
    })
}

pub(crate) fn of_lex(alloc: Global, fault: LexFault) -> Says
    ensures { printed.says result.number result.place result.values ≡ faults.of_lex fault }
{
    bare(alloc, fault.number() as u32, fault.place())
}

pub(crate) fn of_prep(alloc: Global, fault: &PrepFault) -> Result<Says, Memory>
    ensures { IfOk result (λ made. printed.says made.number made.place made.values ≡ faults.of_prep fault.now) }
{
    match fault {
        PrepFault::UnknownMacro(name, at) => named(alloc, 1, Some(*at), name.bytes()),
        PrepFault::UnbalancedIf(at) => Ok(bare(alloc, 2, Some(*at))),
        PrepFault::MacroArgs(at) => Ok(bare(alloc, 3, Some(*at))),
        PrepFault::MacroDepth(at) => Ok(bare(alloc, 4, Some(*at))),
        PrepFault::Include(at) => Ok(bare(alloc, 5, Some(*at))),
        PrepFault::TooManyTokens(at) => Ok(bare(alloc, 6, Some(*at))),
        PrepFault::NoName(at) => Ok(bare(alloc, 7, Some(*at))),
        PrepFault::Memory => Err(Memory),
    }
}

pub(crate) fn of_parse(alloc: Global, fault: &ParseFault) -> Result<Says, Memory>
    ensures { IfOk result (λ made. printed.says made.number made.place made.values ≡ faults.of_parse fault.now) }
{
    match fault {
        ParseFault::Syntax(at) => Ok(bare(alloc, 1, Some(*at))),
        ParseFault::TooDeep(at) => Ok(bare(alloc, 2, Some(*at))),
        ParseFault::Outside(at, word) => named(alloc, 3, Some(*at), word.bytes()),
        ParseFault::Memory => Err(Memory),
    }
}

pub(crate) fn of_elab(alloc: Global, fault: &ElabFault) -> Result<Says, Memory>
    ensures { IfOk result (λ made. printed.says made.number made.place made.values ≡ faults.of_elab fault.now) }
{
    match fault {
        ElabFault::NoModule(name) => named(alloc, 1, None, name.bytes()),
        ElabFault::Twice(name, at) => named(alloc, 2, Some(*at), name.bytes()),
        ElabFault::Unknown(name, at) => named(alloc, 3, Some(*at), name.bytes()),
        ElabFault::Port(name, at) => named(alloc, 4, Some(*at), name.bytes()),
        ElabFault::Param(name, at) => named(alloc, 5, Some(*at), name.bytes()),
        ElabFault::Recursive(modules) => Ok(Says {
            number: 6,
            place: None,
            values: copies(alloc, modules.as_slice())?,
        }),
        ElabFault::Range(at) => Ok(bare(alloc, 7, Some(*at))),
        ElabFault::GenLoop(at) => Ok(bare(alloc, 8, Some(*at))),
        ElabFault::TooManyBits(count) => numbered(alloc, 9, None, *count),
        ElabFault::Clock(at) => Ok(bare(alloc, 10, Some(*at))),
        ElabFault::NotConstant(at) => Ok(bare(alloc, 11, Some(*at))),
        ElabFault::ZeroDivisor(at) => Ok(bare(alloc, 12, Some(*at))),
        ElabFault::TooWide(at, width) => numbered(alloc, 13, Some(*at), *width),
        ElabFault::TooLarge(at) => Ok(bare(alloc, 14, Some(*at))),
        ElabFault::Kind(name, at) => named(alloc, 15, Some(*at), name.bytes()),
    }
}

/// A name and the number of one of its bits.
fn name_and_bit(alloc: Global, name: &Text, bit: u32) -> Result<List<Text>, Memory>
    ensures { IfOk result (λ values. values ≡ name.now ∷ decimal bit ∷ []) }
{
    let mut values = one_value(alloc, name.bytes())?;
    push_number(alloc, &mut values, bit as u64)?;
    Ok(values)
}

/// Places are printed by the names of the files.
pub(crate) fn of_flow(alloc: Global, names: &[Text], fault: &FlowFault) -> Result<Says, Memory>
    ensures { IfOk result (λ made. printed.says made.number made.place made.values
        ≡ faults.of_flow names.now fault.now) }
{
    match fault {
        FlowFault::Loop(places) => Ok(Says {
            number: 1,
            place: None,
            values: place_texts(alloc, names, places.as_slice())?,
        }),
        FlowFault::Latch(name, at) => named(alloc, 2, Some(*at), name.bytes()),
        FlowFault::TwoDrivers(name, bit, first, second) => {
            let mut values = name_and_bit(alloc, name, *bit)?;
            values.push(place_text(alloc, names, *second)?)?;
            Ok(Says {
                number: 3,
                place: Some(*first),
                values,
            })
        }
        FlowFault::Undriven(name, bit) => Ok(Says {
            number: 4,
            place: None,
            values: name_and_bit(alloc, name, *bit)?,
        }),
        FlowFault::BlockingShared(name, at) => named(alloc, 5, Some(*at), name.bytes()),
        FlowFault::Mixed(name, at) => named(alloc, 6, Some(*at), name.bytes()),
        FlowFault::Memory => Err(Memory),
    }
}

pub(crate) fn of_port(alloc: Global, fault: PortFault) -> Result<Says, Memory>
    ensures { IfOk result (λ made. printed.says made.number made.place made.values ≡ faults.of_port fault) }
{
    match fault {
        PortFault::Missing(field) => named(alloc, 1, None, field.name()),
        PortFault::Width(field, found, wanted) => {
            let mut values = one_value(alloc, field.name())?;
            push_number(alloc, &mut values, found as u64)?;
            push_number(alloc, &mut values, wanted)?;
            Ok(Says {
                number: 2,
                place: None,
                values,
            })
        }
        PortFault::NeedsAligned => Ok(bare(alloc, 3, None)),
        PortFault::Memory => Err(Memory),
    }
}
