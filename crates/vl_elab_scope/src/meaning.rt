ghost use Rattle.vl_size.specs.Table.{IsPlain, IsShaped};

use fv_text::Text;
use indexmap::IndexMap;
use vl_elab_spec::Role;
use vl_mean::Const;
use vl_size::Decl;

/// A net or a variable whose shape is known. In its name stands no bracket.
#[derive(Drop)]
pub struct Object {
    pub decl: Decl,
    pub role: Role,
    pub scalar: bool,
    pub ghost shaped: { IsShaped decl },
    pub ghost plain: { IsPlain decl },
}

/// What a declared name means while a design is judged.
#[derive(Drop)]
pub enum Meaning {
    /// A parameter, or the variable of a loop around; whether it may be selected from.
    Constant(Const, bool),
    /// A genvar outside the loops whose heads name it.
    LoopVariable,
    Object(Object),
    /// A parameter whose own declaration is refused for its value or its shape.
    Faulty,
    /// A net or a variable whose own declaration is refused for its shape.
    Shapeless,
    /// A name of the scope of a parameter or a scope around, and no parameter before it.
    Later,
}

/// A declared name with what it means.
#[derive(Drop)]
pub(crate) struct Named {
    pub(crate) text: Text,
    pub(crate) meaning: Meaning,
}

/// The names of a scope that has any. The first one stands apart, so that a scope with one name, such as a turn of a
/// loop, has no map.
#[derive(Drop)]
pub(crate) struct Filled {
    pub(crate) first: Named,
    pub(crate) others: IndexMap<Vec<u8>, Meaning>,
}
