//! What stands before names that are declared together.
ghost use Rattle.std.specs.Prelude.{◌≡◌, IfOk};
ghost use Rattle.vl_elab_decls.specs.Forms as spec;

use fv_text::{Memory, Text};
use std::alloc::Global;
use vl_elab_const::Extent;
use vl_size::{Class, Decl};

/// Of nets and variables that are declared together.
#[derive(Clone, Copy)]
pub(crate) struct Form {
    pub class: Class,
    pub signed: bool,
    pub output: bool,
    pub extent: Extent,
}

/// `words`: of a memory the bounds of its words.
pub(crate) fn decl_with(
    alloc: Global,
    form: Form,
    name: &Text,
    words: Option<(i64, i64)>,
) -> Result<Decl, Memory>
    ensures { IfOk result (λ d. d ≡ spec.decl_with form name.now words) }
{
    Ok(Decl {
        name: name.copied(alloc)?,
        width: form.extent.bits,
        signed: form.signed,
        left: form.extent.left,
        right: form.extent.right,
        words,
        class: form.class,
        output: form.output,
    })
}
