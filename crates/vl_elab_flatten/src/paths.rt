//! Paths within blocks, instances and turns, which share those around.
ghost use Rattle.std.specs.Prelude.{◌≡◌, ◌++◌, [], true, IfOk, codes};
ghost use Rattle.fv_bits.specs.Bits.{as_int};
ghost use Rattle.vl_size.specs.Size.{is_bound};
ghost use Rattle.vl_mean.specs.Walk as spec;

use fv_text::{Memory, Text};
use std::alloc::Global;
use vl_elab_draft::Path;
use vl_elab_names as names;
use vl_mean::Const;

fn no_text(alloc: Global) -> Text
    ensures { result ≡ [] }
{
    Text::from_vec(Vec::new(alloc))
}

/// The path within a block or an instance of this name, under a path (IEEE 1364-2005, section 12.5).
pub(crate) fn inside_path(alloc: Global, path: &Path, name: &Text) -> Result<Path, Memory>
    ensures { IfOk result (λ inside. inside ≡ path.now ++ name.now ++ codes ".") }
{
    let own = names::inside_path(alloc, &no_text(alloc), name)?;
    path.behind(alloc, own)
}

/// The path within a turn of a generate loop, in which the loop's variable has this value (IEEE 1364-2005, section
/// 12.4.1).
pub(crate) fn turn_path(
    alloc: Global,
    path: &Path,
    label: &Text,
    value: Const,
) -> Result<Path, Memory>
    requires { is_bound (as_int value.width value.signed value.value) ≡ true }
    ensures { IfOk result (λ inside. inside ≡ spec.turn_path path.now label.now value) }
{
    let own = names::turn_path(alloc, &no_text(alloc), label, value)?;
    path.behind(alloc, own)
}
