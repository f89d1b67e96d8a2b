ghost use Rattle.std.specs.Prelude.{◌≡◌, ◌<◌, IfOk, Some, length, slice_get};
ghost use Rattle.vl_size.specs.declared.decl.Decl.{Decl};

use fv_text::{Memory, Text};
use std::alloc::Global;
use vl_size::Decls;

/// The name at a place.
pub fn name_of(alloc: Global, decls: &Decls, place: usize) -> Result<Text, Memory>
    requires { place < length decls.now }
    ensures { IfOk result (λ name. (d : Decl) → slice_get decls.now place ≡ Some d → name ≡ d.name) }
{
    match decls.get(place) {
        None => unreachable!(),
        Some(decl) => Ok(decl.name.copied(alloc)?),
    }
}
