ghost use Rattle.std.specs.Prelude.{◌≡◌, Some, IsSome, length};
ghost use Rattle.vl_size.specs.Table.{declared_as};
ghost use Rattle.vl_lower_expr.specs.Bound.{bound, HasPlace};

use crate::bindings::Bindings;
use crate::place::Place;
use fv_text::Text;
use vl_size::Decl;

/// The declaration of a name, and its place.
pub fn found<'a>(names: Bindings<'a>, text: &Text) -> (&'a Decl, Place)
    requires declared { IsSome (declared_as names.decls.now text.now) }
    requires each { length names.places.now ≡ length names.decls.now }
    ensures declared { declared_as names.entry.decls.now text.now ≡ Some result.0.now }
    ensures place { HasPlace (bound names.entry) result.0.now result.1 }
{
    let Some(index) = names.decls.find(text) else {
        unreachable!()
    };
    let Some(decl) = names.decls.get(index as usize) else {
        unreachable!()
    };
    (decl, names.places[index as usize])
}
