//! Names of generate blocks.
ghost use Rattle.std.specs.Prelude.{◌≡◌, ◌++◌, ℕ, List, IfOk, codes, decimal, length, replicate};
ghost use Rattle.vl_mean.specs.Declarations as spec;
ghost use Rattle.vl_elab_names.specs.Known.{AreNames};

use crate::set::NameSet;
use fv_text::{Memory, Text};
use itoa::Buffer;
use std::alloc::Global;

/// The name of a block of a generate construct (IEEE 1364-2005, section 12.4.3): its label, or `genblk` with the
/// construct's number in its scope, behind as few zeros as no explicitly declared name of the scope has. `names`: those
/// names, `count`: how many declarations of the scope have one.
pub fn block_name(
    alloc: Global,
    names: &NameSet,
    count: usize,
    number: u64,
    label: &Option<Text>,
) -> Result<Text, Memory>
    ensures { IfOk result (λ text. (all : List (List ℕ)) → AreNames names.now all → count ≡ length all
        → text ≡ spec.block_name all number label.now) }
{
    match label {
        None => unlabelled(alloc, names, count, number),
        Some(label) => label.copied(alloc),
    }
}

fn unlabelled(alloc: Global, names: &NameSet, count: usize, number: u64) -> Result<Text, Memory>
    ensures { IfOk result (λ text. (all : List (List ℕ)) → AreNames names.now all → count ≡ length all
        → text ≡ spec.unlabelled all number) }
{
    for zeros in 0..count {
        let name = genblk(alloc, zeros, number)?;
        if !names.contains(&name) {
            return Ok(name);
        }
    }
    genblk(alloc, count, number)
}

fn genblk(alloc: Global, zeros: usize, number: u64) -> Result<Text, Memory>
    ensures { IfOk result (λ text. text ≡ spec.genblk zeros number) }
{
    let mut bytes = Vec::from_slice(alloc, b"genblk")?;
    for _ in 0..zeros {
        bytes.push(b'0')?;
    }
    let mut digits = Buffer::new();
    bytes.extend_from_slice(digits.format(number).as_bytes())?;
    Ok(Text::from_vec(bytes))
}
