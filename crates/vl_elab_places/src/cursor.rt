//! How far it is to the node, or the name, that is one too many.
ghost use Rattle.std.specs.Prelude.{◌≡◌, None};
ghost use Rattle.vl_elab_places.specs.Passing as spec;

use fv_text::Pos;

/// How many more may come, and where the first one stands that is too many.
#[derive(Clone, Copy)]
pub(crate) struct Cursor {
    pub(crate) left: u64,
    pub(crate) found: Option<Pos>,
}

impl Cursor {
    /// Before any.
    pub(crate) fn new(left: u64) -> Cursor
        ensures { result ≡ record { left = left; found = None } }
    {
        Cursor { left, found: None }
    }

    /// Behind so many more at one place.
    pub(crate) fn moved(self, count: u64, pos: Pos) -> Cursor
        ensures { result ≡ spec.moved count pos self }
    {
        if self.found.is_some() {
            self
        } else if self.left < count {
            Cursor {
                left: 0,
                found: Some(pos),
            }
        } else {
            Cursor {
                left: self.left - count,
                found: None,
            }
        }
    }
}
