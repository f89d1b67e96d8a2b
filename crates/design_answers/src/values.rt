//! How values are printed.

use anyhow::Result;
use fv_text::Trace;
use std::alloc::Global;

/// What the name has in each cycle.
fn values_at(alloc: Global, trace: &Trace, at: usize) -> Result<Vec<u128>> {
    let mut all = Vec::new(alloc);
    for row in trace.cycles.as_slice() {
        let value = match row.as_slice().get(at) {
            Some(value) => *value,
            None => 0,
        };
        all.push(value)?;
    }
    Ok(all)
}

fn line(alloc: Global, all: &[u128]) -> Result<String> {
    let mut out = String::new(alloc);
    let first = match all.first() {
        Some(first) => *first,
        None => 0,
    };
    let same = all.iter().all(|value| *value == first);
    for (index, value) in all.iter().enumerate() {
        if index == 0 {
            out.push_str(format!(in alloc; "{value}")?.as_str())?;
        } else if !same {
            out.push_str(format!(in alloc; " {value}")?.as_str())?;
        }
    }
    Ok(out)
}

/// What the name `y` has in each cycle.
pub(crate) fn values(alloc: Global, trace: &Trace) -> Result<String> {
    let at = trace
        .names
        .as_slice()
        .iter()
        .position(|name| name.text.bytes() == b"y".as_slice());
    match at {
        None => Ok(String::from_str(alloc, "no name y")?),
        Some(at) => {
            let all = values_at(alloc, trace, at)?;
            line(alloc, all.as_slice())
        }
    }
}
