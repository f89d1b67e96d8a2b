use rv_table::Retire;

/// A retirement, with the cycle and the channel that it is told in.
#[derive(Debug, Clone, Copy, PartialEq, Eq)]
pub struct Retired {
    pub cycle: u32,
    pub channel: u32,
    pub retire: Retire,
}

/// What the probes of a run show in the cycle of the check; 0 where the design has none.
#[derive(Debug, Clone, Copy, PartialEq, Eq)]
pub struct Probe {
    /// The address of a half word of instruction memory, in bytes.
    pub imem_addr: u32,
    /// That half word.
    pub imem_data: u16,
    /// The address of a word of data memory, in bytes.
    pub dmem_addr: u32,
}
