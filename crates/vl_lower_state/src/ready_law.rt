//! What registers and memories want of cells before they get them: laws, without code.
ghost use Rattle.vl_lower_state.specs.Ready.{MemoriesAreReady, RegistersAreReady};

/// The bits of registers are some of the cells that they are of, and nodes of them have their widths.
pub fn registers_are_ready()
    ensures { RegistersAreReady }
{}

/// Memories that have no writes may be written from the cells that they are of.
pub fn memories_are_ready()
    ensures { MemoriesAreReady }
{}
