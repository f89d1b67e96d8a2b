//! Paths: what stands before the names of a scope.
ghost use Rattle.std.specs.Prelude.{◌≡◌, ◌++◌, true, IfOk, codes};
ghost use Rattle.std.specs.Fmt.{signed_decimal};
ghost use Rattle.fv_bits.specs.Bits.{as_int};
ghost use Rattle.vl_size.specs.Size.{is_bound};
ghost use Rattle.vl_mean.specs.Walk as spec;

use fv_text::{Memory, Text};
use itoa::Buffer;
use std::alloc::Global;
use vl_mean::Const;
use vl_mean::widths::bound;
use vl_size::Own;

/// The path within a block or an instance of this name, under a path (IEEE 1364-2005, section 12.5).
pub fn inside_path(alloc: Global, path: &Text, name: &Text) -> Result<Text, Memory>
    ensures { IfOk result (λ text. text ≡ path.now ++ name.now ++ codes ".") }
{
    let mut bytes = Vec::from_slice(alloc, path.bytes())?;
    bytes.extend_from_slice(name.bytes())?;
    bytes.extend_from_slice(b".")?;
    Ok(Text::from_vec(bytes))
}

/// The path within a turn of a generate loop, in which the loop's variable has this value (IEEE 1364-2005, section
/// 12.4.1).
pub fn turn_path(alloc: Global, path: &Text, label: &Text, value: Const) -> Result<Text, Memory>
    requires { is_bound (as_int value.width value.signed value.value) ≡ true }
    ensures { IfOk result (λ text. text ≡ spec.turn_path path.now label.now value) }
{
    let index = index_of(value);
    indexed(alloc, path, label, index)
}

/// Of 32 signed bits.
fn index_of(value: Const) -> i64
    requires { is_bound (as_int value.width value.signed value.value) ≡ true }
    ensures { result ≡ as_int value.width value.signed value.value }
{
    let own = Own {
        width: value.width,
        signed: value.signed,
        number: value.value,
    };
    match bound(own) {
        Some(index) => index,
        None => unreachable!(),
    }
}

fn indexed(alloc: Global, path: &Text, label: &Text, index: i64) -> Result<Text, Memory>
    ensures { IfOk result (λ text. text
        ≡ path.now ++ label.now ++ codes "[" ++ signed_decimal index ++ codes "].") }
{
    let mut digits = Buffer::new();
    let mut bytes = Vec::from_slice(alloc, path.bytes())?;
    bytes.extend_from_slice(label.bytes())?;
    bytes.extend_from_slice(b"[")?;
    bytes.extend_from_slice(digits.format(index).as_bytes())?;
    bytes.extend_from_slice(b"].")?;
    Ok(Text::from_vec(bytes))
}
