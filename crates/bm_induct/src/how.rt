//! What becomes of a net.
ghost use Rattle.std.specs.Prelude.{◌≡◌};
ghost use Rattle.bm_induct.specs.Rebuilt as spec;

use wn_net::{Init, InputKind};

/// What becomes of a net that is built anew.
#[derive(Debug, Clone, Copy, PartialEq, Eq)]
pub enum Rebuild {
    /// It has no assumptions.
    Waived,
    /// Each register and each word of a memory may begin with any number, and what reads a reset reads 0 in all cycles.
    Freed,
}

impl Rebuild {
    /// What a register or a word begins with.
    pub(crate) fn start(self, init: Init) -> Init
        ensures { result ≡ spec.start_for self init }
    {
        match self {
            Rebuild::Waived => init,
            Rebuild::Freed => Init::Free,
        }
    }

    /// Whether what reads an input of this kind reads 0.
    pub(crate) fn holds(self, kind: InputKind) -> bool
        ensures { result ≡ spec.is_held self kind }
    {
        match (self, kind) {
            (Rebuild::Freed, InputKind::Reset) => true,
            _ => false,
        }
    }
}
