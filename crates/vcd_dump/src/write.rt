ghost use Rattle.std.specs.Prelude.{◌≡◌, ◌++◌, IfOk, OnOk};
ghost use Rattle.std.specs.List.{AllByRecursion};
ghost use Rattle.vcd_dump.specs.Vcd.{IsTrace, AreValues, text_of, with_end, name_line, name_lines, value_of};
ghost use Rattle.vcd_dump.specs.Vcd.{value_line, value_lines, change_line, change_lines, time_line, later_lines};
ghost use Rattle.vcd_dump.specs.Vcd.{first_lines, cycle_lines, header_lines, vcd_text};

use crate::digits::{put_binary, put_code};
use fv_text::{List, Memory, Trace, TraceName};
use itoa::Buffer;
use std::alloc::Global;

/// The value-change dump of a trace: the header, all values at time 0, the changes at later times, and as the last line
/// the number of cycles (IEEE 1364-2005, 18.2).
#[tactic(auto, using(crate::proofs::WriteLemmas::lines_put))]
pub fn vcd(alloc: Global, trace: &Trace) -> Result<Vec<u8>, Memory>
    requires { IsTrace trace.now }
    ensures text { IfOk result (λ bytes. bytes.items ≡ vcd_text trace.now) }
{
    let mut out = Vec::new(alloc);
    let names = trace.names.as_slice();
    put_header(&mut out, names)?;
    put_cycles(&mut out, names, trace.cycles.as_slice())?;
    Ok(out)
}

fn put_line(out: &mut Vec<u8>, line: &[u8]) -> Result<(), Memory>
    ensures { OnOk result (out.new.items ≡ out.old.items ++ with_end line.now) }
{
    out.extend_from_slice(line)?;
    out.push(b'\n')?;
    Ok(())
}

fn put_header(out: &mut Vec<u8>, names: &[TraceName]) -> Result<(), Memory>
    ensures { OnOk result (out.new.items ≡ out.old.items ++ text_of (header_lines names.now)) }
{
    put_line(out, b"$timescale 1 ns $end")?;
    put_line(out, b"$scope module rvfi_wrapper $end")?;
    put_names(out, names)?;
    put_line(out, b"$upscope $end")?;
    put_line(out, b"$enddefinitions $end")?;
    Ok(())
}

#[tactic(auto, using(crate::proofs::WriteLemmas::names_step, crate::proofs::WriteLemmas::names_end))]
fn put_names(out: &mut Vec<u8>, names: &[TraceName]) -> Result<(), Memory>
    ensures { OnOk result (out.new.items ≡ out.old.items ++ text_of (name_lines 0 names.now)) }
{
    for (index, name) in names.iter().enumerate() {
        put_name(out, index, name)?;
    }
    Ok(())
}

/// The width and the code of a name.
fn put_name(out: &mut Vec<u8>, index: usize, name: &TraceName) -> Result<(), Memory>
    ensures { OnOk result (out.new.items ≡ out.old.items ++ with_end (name_line index name.now)) }
{
    let mut buffer = Buffer::new();
    out.extend_from_slice(b"$var wire ")?;
    out.extend_from_slice(buffer.format(name.width).as_bytes())?;
    out.push(b' ')?;
    put_code(out, index)?;
    out.push(b' ')?;
    out.extend_from_slice(name.text.bytes())?;
    out.extend_from_slice(b" $end\n")?;
    Ok(())
}

/// Time 0 with all values, the later times with what changed, and the number of cycles.
#[tactic(auto, using(crate::proofs::WriteLemmas::lines_put))]
fn put_cycles(out: &mut Vec<u8>, names: &[TraceName], cycles: &[List<u128>]) -> Result<(), Memory>
    requires { AllByRecursion (AreValues names.now) cycles.now }
    ensures { OnOk result (out.new.items ≡ out.old.items ++ text_of (cycle_lines names.now cycles.now)) }
{
    match cycles {
        [] => Ok(()),
        [first, later @ ..] => {
            put_first(out, names, first.as_slice())?;
            put_later(out, names, first.as_slice(), later)
        }
    }
}

fn put_first(out: &mut Vec<u8>, names: &[TraceName], values: &[u128]) -> Result<(), Memory>
    requires { AreValues names.now values.now }
    ensures { OnOk result (out.new.items ≡ out.old.items ++ text_of (first_lines names.now values.now)) }
{
    put_line(out, b"#0")?;
    put_line(out, b"$dumpvars")?;
    put_values(out, names, values)?;
    put_line(out, b"$end")?;
    Ok(())
}

#[tactic(auto, using(crate::proofs::WriteLemmas::as_many, crate::proofs::WriteLemmas::values_step, crate::proofs::WriteLemmas::values_end))]
fn put_values(out: &mut Vec<u8>, names: &[TraceName], values: &[u128]) -> Result<(), Memory>
    requires { AreValues names.now values.now }
    ensures { OnOk result (out.new.items ≡ out.old.items ++ text_of (value_lines 0 names.now values.now)) }
{
    for (index, name) in names.iter().enumerate() {
        put_value(out, index, name, values[index])?;
    }
    Ok(())
}

/// The value of the name with this index.
fn put_value(out: &mut Vec<u8>, index: usize, name: &TraceName, value: u128) -> Result<(), Memory>
    ensures { OnOk result (out.new.items ≡ out.old.items ++ with_end (value_line index name.now value)) }
{
    put_digits(out, name.width, value)?;
    put_code(out, index)?;
    out.push(b'\n')?;
    Ok(())
}

fn put_digits(out: &mut Vec<u8>, width: u32, value: u128) -> Result<(), Memory>
    ensures { OnOk result (out.new.items ≡ out.old.items ++ value_of width value) }
{
    if width == 1 {
        return put_binary(out, value);
    }
    out.push(b'b')?;
    put_binary(out, value)?;
    out.push(b' ')?;
    Ok(())
}

/// The times from 1 on, with what changed since the time before, and the number of cycles.
#[tactic(auto, using(crate::proofs::WriteLemmas::at_each, crate::proofs::WriteLemmas::later_step, crate::proofs::WriteLemmas::later_end))]
fn put_later(
    out: &mut Vec<u8>,
    names: &[TraceName],
    first: &[u128],
    later: &[List<u128>],
) -> Result<(), Memory>
    requires first { AreValues names.now first.now }
    requires later { AllByRecursion (AreValues names.now) later.now }
    ensures { OnOk result (out.new.items ≡ out.old.items ++ text_of (later_lines names.now 1 first.now later.now)) }
{
    let mut before = first;
    for (index, values) in later.iter().enumerate() {
        let values = values.as_slice();
        put_time(out, index + 1)?;
        put_changes(out, names, before, values)?;
        before = values;
    }
    put_time(out, later.len() + 1)
}

fn put_time(out: &mut Vec<u8>, time: usize) -> Result<(), Memory>
    ensures { OnOk result (out.new.items ≡ out.old.items ++ with_end (time_line time)) }
{
    let mut buffer = Buffer::new();
    out.push(b'#')?;
    out.extend_from_slice(buffer.format(time).as_bytes())?;
    out.push(b'\n')?;
    Ok(())
}

#[tactic(auto, using(crate::proofs::WriteLemmas::as_many, crate::proofs::WriteLemmas::changes_step, crate::proofs::WriteLemmas::changes_end))]
fn put_changes(
    out: &mut Vec<u8>,
    names: &[TraceName],
    before: &[u128],
    values: &[u128],
) -> Result<(), Memory>
    requires before { AreValues names.now before.now }
    requires values { AreValues names.now values.now }
    ensures { OnOk result (out.new.items ≡ out.old.items
        ++ text_of (change_lines 0 names.now before.now values.now)) }
{
    for (index, name) in names.iter().enumerate() {
        put_change(out, index, name, before[index], values[index])?;
    }
    Ok(())
}

/// Nothing where the value is the one before.
fn put_change(
    out: &mut Vec<u8>,
    index: usize,
    name: &TraceName,
    before: u128,
    value: u128,
) -> Result<(), Memory>
    ensures { OnOk result (out.new.items ≡ out.old.items ++ text_of (change_line index name.now before value)) }
{
    if before == value {
        return Ok(());
    }
    put_value(out, index, name, value)
}
