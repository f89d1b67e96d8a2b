//! How refusals of drivers are printed.

use crate::shown::{name, place};
use anyhow::Result;
use fv_text::{Pos, Text};
use std::alloc::Global;
use vl_flow::FlowFault;

/// The first place, and behind it the others with commas between them.
fn places(alloc: Global, all: &[Pos]) -> Result<String> {
    let mut out = String::new(alloc);
    let mut count = 0u64;
    for pos in all {
        if count == 1 {
            out.push(' ')?;
        } else if count > 1 {
            out.push(',')?;
        }
        out.push_str(place(alloc, *pos)?.as_str())?;
        count = count.saturating_add(1);
    }
    if count == 1 {
        out.push_str(" -")?;
    }
    Ok(out)
}

fn named(alloc: Global, number: u32, text: &Text, pos: Pos) -> Result<String> {
    let place = place(alloc, pos)?;
    let name = name(alloc, text)?;
    Ok(format!(in alloc; "{number} {place} {name}")?)
}

pub(crate) fn refusal(alloc: Global, fault: &FlowFault) -> Result<String> {
    match fault {
        FlowFault::Loop(all) => {
            let places = places(alloc, all.as_slice())?;
            Ok(format!(in alloc; "1 {places}")?)
        }
        FlowFault::Latch(text, pos) => named(alloc, 2, text, *pos),
        FlowFault::TwoDrivers(text, bit, first, second) => {
            let first = place(alloc, *first)?;
            let name = name(alloc, text)?;
            let second = place(alloc, *second)?;
            Ok(format!(in alloc; "3 {first} {name},{bit},{second}")?)
        }
        FlowFault::Undriven(text, bit) => {
            let name = name(alloc, text)?;
            Ok(format!(in alloc; "4 - {name},{bit}")?)
        }
        FlowFault::BlockingShared(text, pos) => named(alloc, 5, text, *pos),
        FlowFault::Mixed(text, pos) => named(alloc, 6, text, *pos),
        FlowFault::Memory => Ok(String::from_str(alloc, "memory")?),
    }
}
