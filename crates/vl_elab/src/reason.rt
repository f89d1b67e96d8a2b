//! Why modules have no design without hierarchy.
use fv_text::Memory;
use vl_elab_spec::ElabFault;

/// Why modules have no design without hierarchy: they are refused, or no memory is left to write it.
#[derive(Drop)]
pub enum Reason {
    Refused(ElabFault),
    Memory,
}

impl From<Memory> for Reason {
    ghost use Rattle.std.specs.Prelude.{◌≡◌};
    ghost use Rattle.vl_elab.specs.declared.reason.Reason.TheVariants as reason;

    ghost from_gives = { λ _ e. e ≡ reason.Memory };

    fn from(_fault: Memory) -> Reason {
        Reason::Memory
    }
}
