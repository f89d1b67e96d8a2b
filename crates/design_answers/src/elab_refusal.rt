//! How refusals of modules are printed.

use crate::shown::{name, place};
use anyhow::Result;
use fv_text::{List, Pos, Text};
use std::alloc::Global;
use vl_elab_spec::ElabFault;

/// A number, and behind it a place and values.
struct Parts {
    number: u32,
    pos: Option<Pos>,
    detail: String,
}

fn none(alloc: Global) -> Result<String> {
    Ok(String::from_str(alloc, "-")?)
}

/// Names with commas between them.
fn names(alloc: Global, all: &List<Text>) -> Result<String> {
    let mut out = String::new(alloc);
    for text in all.as_slice() {
        if !out.is_empty() {
            out.push(',')?;
        }
        out.push_str(name(alloc, text)?.as_str())?;
    }
    Ok(out)
}

fn named(alloc: Global, number: u32, text: &Text, pos: Pos) -> Result<Parts> {
    Ok(Parts {
        number,
        pos: Some(pos),
        detail: name(alloc, text)?,
    })
}

fn placed(alloc: Global, number: u32, pos: Pos) -> Result<Parts> {
    Ok(Parts {
        number,
        pos: Some(pos),
        detail: none(alloc)?,
    })
}

fn unplaced(number: u32, detail: String) -> Parts {
    Parts {
        number,
        pos: None,
        detail,
    }
}

fn taken_apart(alloc: Global, fault: &ElabFault) -> Result<Parts> {
    match fault {
        ElabFault::NoModule(text) => Ok(unplaced(1, name(alloc, text)?)),
        ElabFault::Twice(text, pos) => named(alloc, 2, text, *pos),
        ElabFault::Unknown(text, pos) => named(alloc, 3, text, *pos),
        ElabFault::Port(text, pos) => named(alloc, 4, text, *pos),
        ElabFault::Param(text, pos) => named(alloc, 5, text, *pos),
        ElabFault::Recursive(all) => Ok(unplaced(6, names(alloc, all)?)),
        ElabFault::Range(pos) => placed(alloc, 7, *pos),
        ElabFault::GenLoop(pos) => placed(alloc, 8, *pos),
        ElabFault::TooManyBits(count) => Ok(unplaced(9, format!(in alloc; "{count}")?)),
        ElabFault::Clock(pos) => placed(alloc, 10, *pos),
        ElabFault::NotConstant(pos) => placed(alloc, 11, *pos),
        ElabFault::ZeroDivisor(pos) => placed(alloc, 12, *pos),
        ElabFault::TooWide(pos, width) => Ok(Parts {
            number: 13,
            pos: Some(*pos),
            detail: format!(in alloc; "{width}")?,
        }),
        ElabFault::TooLarge(pos) => placed(alloc, 14, *pos),
        ElabFault::Kind(text, pos) => named(alloc, 15, text, *pos),
    }
}

pub(crate) fn refusal(alloc: Global, fault: &ElabFault) -> Result<String> {
    let Parts {
        number,
        pos,
        detail,
    } = taken_apart(alloc, fault)?;
    let place = match pos {
        Some(pos) => place(alloc, pos)?,
        None => none(alloc)?,
    };
    Ok(format!(in alloc; "{number} {place} {detail}")?)
}
