//! That the public types may be shared among threads.

use crate::context::Context;
use crate::decl::{Class, Decl};
use crate::decls::Decls;
use crate::own::Own;
use crate::way::Way;

fn is_shared<T: Send + Sync>(_value: &T) {}

pub(crate) fn declarations_are_shared(decls: &Decls, decl: &Decl, class: &Class, way: &Way) {
    is_shared(decls);
    is_shared(decl);
    is_shared(class);
    is_shared(way);
}

pub(crate) fn numbers_are_shared(own: &Own, context: &Context) {
    is_shared(own);
    is_shared(context);
}
