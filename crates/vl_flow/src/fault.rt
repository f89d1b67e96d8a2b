use fv_text::{List, Memory, Pos, Text};
use thiserror::Error;

/// Why a design's drivers have no order. The first of these that is there is answered, over the whole design; within
/// one it is that of the first declared name, and of it the lowest bit. Places of 2 to 6 are those of drivers that
/// assign the name, of several the earliest.
#[derive(Debug, Drop, Error)]
pub enum FlowFault {
    /// 1. Drivers that aren't clocked, each of them once, each of which reads a bit that the next one drives, and the
    /// last one a bit of the first; the first has the earliest place.
    #[error("a loop of drivers at {0:?}")]
    Loop(List<Pos>),
    /// 2. A combinational block may change a bit, and doesn't surely assign it on some path.
    #[error("a latch: {0:?} at {1:?}")]
    Latch(Text, Pos),
    /// 3. A bit that two drivers assign, or one target twice; a memory counts as its bit 0.
    #[error("two drivers of bit {1} of {0:?} at {2:?} and {3:?}")]
    TwoDrivers(Text, u32, Pos, Pos),
    /// 4. A bit of a net that no driver assigns.
    #[error("bit {1} of {0:?} without a driver")]
    Undriven(Text, u32),
    /// 5. A blocking assignment of a clocked block to a name of which a bit is read outside of the block.
    #[error("a blocking assignment of {0:?}, which others read, at {1:?}")]
    BlockingShared(Text, Pos),
    /// 6. Blocking and nonblocking assignments to one name, whatever they reach of it, or a nonblocking one in a
    /// combinational block.
    #[error("blocking and nonblocking assignments of {0:?} at {1:?}")]
    Mixed(Text, Pos),
    #[error("no memory is left")]
    Memory,
}

impl From<Memory> for FlowFault {
    ghost use Rattle.std.specs.Prelude.{◌≡◌};
    ghost use Rattle.vl_flow.specs.declared.fault.FlowFault.TheVariants as fault;

    ghost from_gives = { λ _ e. e ≡ fault.Memory };

    fn from(_fault: Memory) -> FlowFault {
        FlowFault::Memory
    }
}
