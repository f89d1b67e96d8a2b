//! Value-change dumps.

use certificate_answers::put_escaped;
use fv_text::{Memory, Trace};
use std::alloc::Global;
use vcd_dump::vcd;
use vcd_text::{VcdFault, read_vcd};

/// The names of a dump with their widths and their values in each cycle, and whether it is written again as it stood;
/// or the faulty line.
pub(crate) fn put_reading(alloc: Global, out: &mut String, text: &[u8]) -> Result<(), Memory> {
    match read_vcd(alloc, text) {
        Ok(trace) => put_dump(out, &trace, vcd(alloc, &trace)?.as_slice() == text),
        Err(fault) => put_fault(out, fault),
    }
}

fn put_fault(out: &mut String, fault: VcdFault) -> Result<(), Memory> {
    write!(out, "{fault}")?;
    Ok(())
}

fn put_dump(out: &mut String, trace: &Trace, is_same: bool) -> Result<(), Memory> {
    put_trace(out, trace)?;
    if !is_same {
        out.push_str(" but not the same")?;
    }
    Ok(())
}

fn put_trace(out: &mut String, trace: &Trace) -> Result<(), Memory> {
    for name in trace.names.as_slice() {
        put_escaped(out, name.text.bytes())?;
        write!(out, " {}, ", name.width)?;
    }
    write!(out, "cycles {}", trace.cycles.len())?;
    for values in trace.cycles.as_slice() {
        write!(out, " {:?}", values.as_slice())?;
    }
    Ok(())
}

/// The answers to the dumps that are cut off behind one of the text's lines: how many cycles, or the faulty line.
pub(crate) fn put_cut(alloc: Global, out: &mut String, text: &[u8]) -> Result<(), Memory> {
    for (end, byte) in text.iter().enumerate() {
        if *byte == b'\n' {
            put_answer(alloc, out, &text[..end + 1])?;
        }
    }
    Ok(())
}

fn put_answer(alloc: Global, out: &mut String, text: &[u8]) -> Result<(), Memory> {
    if !out.is_empty() {
        out.push(' ')?;
    }
    match read_vcd(alloc, text) {
        Ok(trace) => put_count(out, "cycles", trace.cycles.len()),
        Err(VcdFault::Line(line)) => put_count(out, "line", line as usize),
        Err(VcdFault::Memory) => Err(Memory),
    }
}

fn put_count(out: &mut String, what: &str, count: usize) -> Result<(), Memory> {
    write!(out, "{what} {count};")?;
    Ok(())
}
