ghost use Rattle.std.specs.Prelude.{◌≡◌, ◌++◌, OnOk};
ghost use Rattle.vcd_dump.specs.Digits.{code, binary};

use fv_text::Memory;

/// The code of the name with this index.
#[tactic(auto, using(crate::proofs::DigitsLemmas::code_small, crate::proofs::DigitsLemmas::code_more))]
pub(crate) fn put_code(out: &mut Vec<u8>, index: usize) -> Result<(), Memory>
    ensures { OnOk result (out.new.items ≡ out.old.items ++ code index) }
{
    let mut rest = index;
    while rest >= 94 {
        out.push(33 + (rest % 94) as u8)?;
        rest /= 94;
    }
    out.push(33 + rest as u8)?;
    Ok(())
}

/// The binary digits, highest first. The recursion is as deep as the number has digits, at most 128.
#[tactic(auto, using(crate::proofs::DigitsLemmas::binary_small, crate::proofs::DigitsLemmas::binary_more))]
pub(crate) fn put_binary(out: &mut Vec<u8>, value: u128) -> Result<(), Memory>
    ensures { OnOk result (out.new.items ≡ out.old.items ++ binary value) }
{
    if value < 2 {
        out.push(48 + value as u8)?;
        return Ok(());
    }
    put_binary(out, value / 2)?;
    out.push(48 + (value % 2) as u8)?;
    Ok(())
}
