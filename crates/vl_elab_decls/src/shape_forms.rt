//! What stands before declared names, and what it makes of one.
ghost use Rattle.std.specs.Prelude.{◌≡◌, Some, IfOk, OnOk};
ghost use Rattle.vl_size.specs.Table as table;
ghost use Rattle.vl_size.specs.Table.{IsShaped, IsPlain};
ghost use Rattle.vl_elab_scope.specs.Seen.{seen, with_name};
ghost use Rattle.vl_elab_spec.specs.Meanings as meanings;
ghost use Rattle.vl_elab_decls.specs.Objects as spec;

use fv_text::{Memory, Text};
use std::alloc::Global;
use vl_elab_params::Extent;
use vl_elab_scope::{Level, Meaning, Object};
use vl_elab_spec::Role;
use vl_size::{Class, Decl};
use vl_tree::{Direction, NetKind};

/// Of nets and variables that are declared together. The extent is None where it isn't known.
#[derive(Clone, Copy)]
pub(crate) struct Form {
    pub class: Class,
    pub signed: bool,
    pub scalar: bool,
    pub role: Role,
    pub output: bool,
    pub extent: Option<Extent>,
}

/// Of a port, what one that is written short behind it takes.
#[derive(Clone, Copy)]
pub(crate) struct PortForm {
    pub direction: Direction,
    pub net: Option<NetKind>,
    pub signed: bool,
    pub scalar: bool,
    pub extent: Option<Extent>,
}

fn is_plain(name: &[u8]) -> bool
    ensures { result ≡ table.is_plain name.now }
{
    name.iter().all(|c| *c != b'[')
}

/// A net or a variable with this extent.
fn decl_with(
    alloc: Global,
    form: Form,
    extent: Extent,
    name: &Text,
    words: Option<(i64, i64)>,
) -> Result<Decl, Memory>
    ensures { IfOk result (λ d. d ≡ spec.decl_with form extent name.now words) }
{
    Ok(Decl {
        name: name.copied(alloc)?,
        width: extent.bits,
        signed: form.signed,
        left: extent.left,
        right: extent.right,
        words,
        class: form.class,
        output: form.output,
    })
}

fn object(decl: Decl, form: Form) -> Meaning
    requires shaped { IsShaped decl }
    requires plain { IsPlain decl }
    ensures { seen result ≡ meanings.object decl form.role form.scalar }
{
    Meaning::Object(Object {
        decl,
        role: form.role,
        scalar: form.scalar,
    })
}

/// What a name means whose extent is known.
fn with_extent(
    alloc: Global,
    form: Form,
    extent: Extent,
    name: &Text,
    words: Option<(i64, i64)>,
) -> Result<Meaning, Memory>
    requires { spec.Fits (Some extent) }
    ensures { IfOk result (λ m. seen m ≡ spec.object_with form name.now (Some extent) (Some words)) }
{
    if !is_plain(name.bytes()) {
        return Ok(Meaning::Shapeless);
    }
    let decl = decl_with(alloc, form, extent, name, words)?;
    Ok(object(decl, form))
}

/// What a name means that is declared so. `words`: of a memory the bounds of its words; None where they aren't known.
fn meaning_of(
    alloc: Global,
    form: Form,
    name: &Text,
    words: Option<Option<(i64, i64)>>,
) -> Result<Meaning, Memory>
    requires { spec.Fits form.extent }
    ensures { IfOk result (λ m. seen m ≡ spec.object_with form name.now form.extent words) }
{
    match form.extent {
        None => Ok(Meaning::Shapeless),
        Some(extent) => match words {
            None => Ok(Meaning::Shapeless),
            Some(words) => with_extent(alloc, form, extent, name, words),
        },
    }
}

/// Adds a name that is declared so.
pub(crate) fn add_declared(
    alloc: Global,
    form: Form,
    name: &Text,
    words: Option<Option<(i64, i64)>>,
    level: &mut Level,
) -> Result<(), Memory>
    requires { spec.Fits form.extent }
    ensures { OnOk result (level.new
        ≡ with_name level.old name.now (spec.object_with form name.now form.extent words)) }
{
    let meaning = meaning_of(alloc, form, name, words)?;
    level.add(name.copied(alloc)?, meaning)
}
