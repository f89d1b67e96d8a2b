ghost use Rattle.std.specs.Prelude.{◌≡◌, ◌++◌, ◌∷◌, [], IfOk, OnOk};
ghost use Rattle.std.specs.Fmt.{signed_decimal};
ghost use Rattle.rvf_judge.specs.Lines as lines;

use ck_design::{Note, NoteLiteral};
use fv_text::{Memory, Text};
use itoa::Buffer;
use std::alloc::Global;

fn put_number(out: &mut Vec<u8>, number: i64) -> Result<(), Memory>
    ensures { OnOk result (out.new.items ≡ out.old.items ++ signed_decimal number) }
{
    let mut buffer = Buffer::new();
    out.extend_from_slice(buffer.format(number).as_bytes())?;
    Ok(())
}

fn put_byte(out: &mut Vec<u8>, byte: u8) -> Result<(), Memory>
    ensures { OnOk result (out.new.items ≡ out.old.items ++ byte ∷ []) }
{
    out.push(byte)?;
    Ok(())
}

fn put_literal(out: &mut Vec<u8>, literal: NoteLiteral) -> Result<(), Memory>
    ensures { OnOk result (out.new.items ≡ out.old.items ++ lines.literal_word literal) }
{
    match literal {
        NoteLiteral::Zero => put_byte(out, b'F'),
        NoteLiteral::One => put_byte(out, b'T'),
        NoteLiteral::Clause(number) => put_number(out, number),
    }
}

fn line_bytes(
    alloc: Global,
    literal: NoteLiteral,
    cycle: u32,
    bit: u32,
    name: &Text,
) -> Result<Vec<u8>, Memory>
    ensures { IfOk result (λ bytes. bytes.items ≡ lines.note_text
        (record { literal = literal; cycle = cycle; bit = bit; name = name.now })) }
{
    let mut buffer = Buffer::new();
    let mut out = Vec::new(alloc);
    put_literal(&mut out, literal)?;
    out.push(b' ')?;
    out.extend_from_slice(buffer.format(cycle).as_bytes())?;
    out.push(b' ')?;
    out.extend_from_slice(buffer.format(bit).as_bytes())?;
    out.push(b' ')?;
    out.extend_from_slice(name.bytes())?;
    Ok(out)
}

fn line_text(
    alloc: Global,
    literal: NoteLiteral,
    cycle: u32,
    bit: u32,
    name: &Text,
) -> Result<Text, Memory>
    ensures { IfOk result (λ text. text ≡ lines.note_text
        (record { literal = literal; cycle = cycle; bit = bit; name = name.now })) }
{
    let bytes = line_bytes(alloc, literal, cycle, bit, name)?;
    Ok(Text::from_vec(bytes))
}

/// The note as a line without its end.
pub(crate) fn note_text(alloc: Global, note: &Note) -> Result<Text, Memory>
    ensures { IfOk result (λ text. text ≡ lines.note_text note.now) }
{
    line_text(alloc, note.literal, note.cycle, note.bit, &note.name)
}
