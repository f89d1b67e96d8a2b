/// What is to be bound beside the fields of the channels.
#[derive(Debug, Clone, Copy, PartialEq, Eq)]
pub struct Probes {
    /// The outputs of the probe of instruction memory.
    pub imem: bool,
    /// The output of the probe of data memory.
    pub dmem: bool,
}
