ghost use Rattle.std.specs.Prelude.{◌≡◌};

use fv_text::Memory;
use rvfi_port::PortFault;
use vl_elab_spec::ElabFault;
use vl_flow::FlowFault;
use vl_text::TextFault;

/// Why nothing is loaded: which part refuses, the first in this order.
#[derive(Drop)]
pub enum LoadFault {
    /// The texts have no tree.
    Text(TextFault),
    /// The tree writes no design.
    Elab(ElabFault),
    /// The design's drivers have no order.
    Flow(FlowFault),
    /// The weight times the factor at this place, counted from 0, is above 20,000,000; with the product, which stands
    /// still at `2^64 - 1`.
    Heavy(u32, u64),
    /// The design has no port.
    Port(PortFault),
    Memory,
}

impl From<Memory> for LoadFault {
    ghost use Rattle.rvf_load.specs.declared.fault.LoadFault.TheVariants as fault;

    ghost from_gives = { λ _ e. e ≡ fault.Memory };

    fn from(_fault: Memory) -> LoadFault {
        LoadFault::Memory
    }
}
