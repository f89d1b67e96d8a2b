ghost use Rattle.std.specs.Prelude.{IfOk, IfErr};
ghost use Rattle.vcd_text.specs.Reading.{IsDumpOf, IsFaultOf};

use crate::fault::VcdFault;
use crate::reader::Reader;
use fv_lines::cut_at;
use fv_text::Trace;
use std::alloc::Global;

/// The trace of a value-change dump as `vcd` writes it, whose names have no blanks and no control bytes. `Line` is the
/// first line that no such dump has behind the lines before it. No other such trace has the same dump.
pub fn read_vcd(alloc: Global, bytes: &[u8]) -> Result<Trace, VcdFault>
    ensures found { IfOk result (λ trace. IsDumpOf bytes.now trace) }
    ensures refused { IfErr result (λ fault. IsFaultOf bytes.now fault) }
{
    let mut reader = Reader::new(alloc);
    let mut rest = bytes;
    let mut place: u32 = 1;
    while let Some((line, behind)) = cut_at(rest, b'\n') {
        if !reader.take(line)? {
            return Err(VcdFault::Line(place));
        }
        rest = behind;
        place = place.saturating_add(1);
    }
    if !rest.is_empty() {
        return Err(VcdFault::Line(place));
    }
    match reader.finish() {
        Some(trace) => Ok(trace),
        None => Err(VcdFault::Line(place)),
    }
}
