//! What the inputs of a module stand for.
ghost use Rattle.std.specs.Prelude.{◌≡◌};
ghost use Rattle.vl_mean.specs.Walk.{top_input};
ghost use Rattle.vl_elab_decls.specs.Inputs as spec;

use fv_text::Text;
use vl_elab_names::NameSet;
use vl_size::Class;

/// How a module is used, as far as its inputs go.
#[derive(Drop)]
pub enum Inputs {
    /// At the top: its inputs `clock` and `reset` have a meaning of their own, and the others are free.
    Top,
    /// By an instance, which joins these inputs to the clock, and each other one to an expression.
    Joined(NameSet),
}

impl Inputs {
    pub(crate) fn is_top(&self) -> bool
        ensures { result ≡ spec.is_top self.now }
    {
        match self {
            Inputs::Top => true,
            Inputs::Joined(_) => false,
        }
    }

    /// What the input of this name stands for.
    pub(crate) fn class_of(&self, name: &Text) -> Class
        ensures { result ≡ spec.class_of self.now name.now }
    {
        match self {
            Inputs::Top => top_input(name),
            Inputs::Joined(clocks) => if clocks.contains(name) {
                Class::Clock
            } else {
                Class::Net
            },
        }
    }
}

/// An input of the top module.
fn top_input(name: &Text) -> Class
    ensures { result ≡ top_input name.now }
{
    if name.is(b"clock") {
        return Class::Clock;
    }
    if name.is(b"reset") {
        return Class::Reset;
    }
    Class::Input
}
