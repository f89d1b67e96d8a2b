//! Meanings once more.
ghost use Rattle.std.specs.Prelude.{◌≡◌, IfOk};
ghost use Rattle.vl_elab_spec.specs.Meanings as meanings;
ghost use Rattle.vl_elab_scope.specs.Seen.{seen};

use crate::meaning::{Meaning, Object};
use crate::tables::copied;
use fv_text::Memory;
use std::alloc::Global;

fn copied_object(alloc: Global, object: &Object) -> Result<Meaning, Memory>
    ensures { IfOk result (λ m. seen m ≡ meanings.object object.now.decl object.now.role object.now.scalar) }
{
    Ok(Meaning::Object(Object {
        decl: copied(alloc, &object.decl)?,
        role: object.role,
        scalar: object.scalar,
    }))
}

impl Meaning {
    /// The same meaning once more.
    pub fn copied(&self, alloc: Global) -> Result<Meaning, Memory>
        ensures { IfOk result (λ m. seen m ≡ seen self.now) }
    {
        match self {
            Meaning::Constant(value, selected) => Ok(Meaning::Constant(*value, *selected)),
            Meaning::Object(object) => copied_object(alloc, object),
            Meaning::LoopVariable => Ok(Meaning::LoopVariable),
            Meaning::Faulty => Ok(Meaning::Faulty),
            Meaning::Shapeless => Ok(Meaning::Shapeless),
            Meaning::Later => Ok(Meaning::Later),
        }
    }
}
