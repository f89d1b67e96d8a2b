ghost use Rattle.std.specs.Prelude.{◌≡◌, ◌++◌, flat_map, IfOk, OnOk};
ghost use Rattle.std.specs.Fmt.{signed_decimal};
ghost use Rattle.cnf_text.specs.Dimacs.{note_text, literal_text, clause_text, header_text, dimacs_text, ReadsBack};

use cnf_form::{Formula, clause_at};
use fv_text::{Memory, Text};
use itoa::Buffer;
use std::alloc::Global;

/// The clause file of a formula, with the notes as comments before the header. A note has no LF.
pub fn dimacs(alloc: Global, formula: &Formula, notes: &[Text]) -> Result<Vec<u8>, Memory>
    ensures text { IfOk result (λ bytes. bytes.items ≡ dimacs_text notes.now formula.now) }
    ensures read_back { IfOk result (λ bytes. ReadsBack notes.now formula.now bytes.items) }
{
    let mut out = Vec::new(alloc);
    for note in notes {
        put_note(&mut out, note)?;
    }
    put_header(&mut out, formula)?;
    for index in 0..formula.len() {
        put_clause(&mut out, clause_at(formula, index))?;
    }
    Ok(out)
}

fn put_note(out: &mut Vec<u8>, note: &Text) -> Result<(), Memory>
    ensures { OnOk result (out.new.items ≡ out.old.items ++ note_text note.now) }
{
    out.extend_from_slice(b"c ")?;
    out.extend_from_slice(note.bytes())?;
    out.push(b'\n')?;
    Ok(())
}

fn put_header(out: &mut Vec<u8>, formula: &Formula) -> Result<(), Memory>
    ensures { OnOk result (out.new.items ≡ out.old.items ++ header_text formula.now) }
{
    let mut buffer = Buffer::new();
    out.extend_from_slice(b"p cnf ")?;
    out.extend_from_slice(buffer.format(formula.vars()).as_bytes())?;
    out.push(b' ')?;
    out.extend_from_slice(buffer.format(formula.len()).as_bytes())?;
    out.push(b'\n')?;
    Ok(())
}

fn put_clause(out: &mut Vec<u8>, clause: &[i64]) -> Result<(), Memory>
    ensures { OnOk result (out.new.items ≡ out.old.items ++ clause_text clause.now) }
{
    put_literals(out, clause)?;
    out.extend_from_slice(b"0\n")?;
    Ok(())
}

/// The literals, each with a blank behind it.
pub fn put_literals(out: &mut Vec<u8>, lits: &[i64]) -> Result<(), Memory>
    ensures { OnOk result (out.new.items ≡ out.old.items ++ flat_map literal_text lits.now) }
{
    for lit in lits {
        put_literal(out, lit)?;
    }
    Ok(())
}

fn put_literal(out: &mut Vec<u8>, lit: &i64) -> Result<(), Memory>
    ensures { OnOk result (out.new.items ≡ out.old.items ++ literal_text lit.now) }
{
    let mut buffer = Buffer::new();
    out.extend_from_slice(buffer.format(*lit).as_bytes())?;
    out.push(b' ')?;
    Ok(())
}
