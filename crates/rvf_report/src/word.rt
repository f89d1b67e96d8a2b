//! Words and values of a line.

ghost use Rattle.std.specs.Prelude.{◌≡◌, ◌++◌, ◌∷◌, [], IfOk, OnOk, decimal};
ghost use Rattle.rvf_report.specs.Printed as printed;

use fv_text::{List, Memory, Text};
use itoa::Buffer;
use std::alloc::Global;

/// A word and a blank behind what is there.
pub fn put_word(line: &mut Vec<u8>, word: &[u8]) -> Result<(), Memory>
    ensures { OnOk result (line.new.items ≡ line.old.items ++ (word.now ++ (32 ∷ []))) }
{
    line.extend_from_slice(word)?;
    line.push(b' ')?;
    Ok(())
}

/// The last word and the end of the line.
pub fn put_end(line: &mut Vec<u8>, word: &[u8]) -> Result<(), Memory>
    ensures { OnOk result (line.new.items ≡ line.old.items ++ (word.now ++ (10 ∷ []))) }
{
    line.extend_from_slice(word)?;
    line.push(b'\n')?;
    Ok(())
}

/// A number and a blank behind what is there.
pub(crate) fn put_number(line: &mut Vec<u8>, number: u64) -> Result<(), Memory>
    ensures { OnOk result (line.new.items ≡ line.old.items ++ (decimal number ++ (32 ∷ []))) }
{
    let mut buffer = Buffer::new();
    put_word(line, buffer.format(number).as_bytes())
}

/// Values, each behind a comma.
fn put_values(made: &mut Vec<u8>, values: &[Text]) -> Result<(), Memory>
    ensures { OnOk result (made.new.items ≡ made.old.items ++ printed.more_values values.now) }
{
    for value in values {
        made.push(b',')?;
        made.extend_from_slice(value.bytes())?;
    }
    Ok(())
}

/// Values joined by commas, `-` where there are none.
pub(crate) fn detail(alloc: Global, values: &[Text]) -> Result<Vec<u8>, Memory>
    ensures { IfOk result (λ made. made.items ≡ printed.detail values.now) }
{
    match values.split_first() {
        None => Ok(Vec::from_slice(alloc, b"-")?),
        Some((first, more)) => {
            let mut made = Vec::from_slice(alloc, first.bytes())?;
            put_values(&mut made, more)?;
            Ok(made)
        }
    }
}

/// The value alone.
pub(crate) fn one_value(alloc: Global, value: &[u8]) -> Result<List<Text>, Memory>
    ensures { IfOk result (λ values. values ≡ value.now ∷ []) }
{
    let mut values = List::new(alloc);
    values.push(Text::from_bytes(alloc, value)?)?;
    Ok(values)
}

/// A number as a value alone.
pub(crate) fn number_alone(alloc: Global, number: u64) -> Result<List<Text>, Memory>
    ensures { IfOk result (λ values. values ≡ decimal number ∷ []) }
{
    let mut buffer = Buffer::new();
    one_value(alloc, buffer.format(number).as_bytes())
}

/// A number as one value more.
pub(crate) fn push_number(alloc: Global, values: &mut List<Text>, number: u64) -> Result<(), Memory>
    ensures { OnOk result (values.new ≡ values.old ++ decimal number ∷ []) }
{
    let mut buffer = Buffer::new();
    values.push(Text::from_bytes(alloc, buffer.format(number).as_bytes())?)
}

/// Copies of texts.
pub(crate) fn copies(alloc: Global, texts: &[Text]) -> Result<List<Text>, Memory>
    ensures { IfOk result (λ values. values ≡ texts.now) }
{
    let mut values = List::new(alloc);
    for text in texts {
        values.push(Text::from_bytes(alloc, text.bytes())?)?;
    }
    Ok(values)
}
