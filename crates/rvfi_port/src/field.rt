ghost use Rattle.std.specs.Prelude.{◌≡◌};
ghost use Rattle.rvfi_port.specs.Fields as fields;

/// A field of RVFI, or a value that a run is probed by. The order is that in which a design is asked for them.
#[derive(Debug, Clone, Copy, PartialEq, Eq)]
pub enum Field {
    Valid,
    Order,
    Insn,
    Trap,
    Halt,
    Intr,
    Rs1Addr,
    Rs2Addr,
    Rs1Rdata,
    Rs2Rdata,
    RdAddr,
    RdWdata,
    PcRdata,
    PcWdata,
    MemAddr,
    MemRmask,
    MemWmask,
    MemRdata,
    MemWdata,
    ImemAddr,
    ImemData,
    DmemAddr,
}

impl Field {
    /// The fields that each channel has.
    pub const CHANNEL: [Field; 19] = [
        Field::Valid,
        Field::Order,
        Field::Insn,
        Field::Trap,
        Field::Halt,
        Field::Intr,
        Field::Rs1Addr,
        Field::Rs2Addr,
        Field::Rs1Rdata,
        Field::Rs2Rdata,
        Field::RdAddr,
        Field::RdWdata,
        Field::PcRdata,
        Field::PcWdata,
        Field::MemAddr,
        Field::MemRmask,
        Field::MemWmask,
        Field::MemRdata,
        Field::MemWdata,
    ];

    /// The name of the output.
    pub fn name(self) -> &'static [u8]
        ensures { result.now ≡ fields.field_name self }
    {
        match self {
            Field::Valid => b"rvfi_valid",
            Field::Order => b"rvfi_order",
            Field::Insn => b"rvfi_insn",
            Field::Trap => b"rvfi_trap",
            Field::Halt => b"rvfi_halt",
            Field::Intr => b"rvfi_intr",
            Field::Rs1Addr => b"rvfi_rs1_addr",
            Field::Rs2Addr => b"rvfi_rs2_addr",
            Field::Rs1Rdata => b"rvfi_rs1_rdata",
            Field::Rs2Rdata => b"rvfi_rs2_rdata",
            Field::RdAddr => b"rvfi_rd_addr",
            Field::RdWdata => b"rvfi_rd_wdata",
            Field::PcRdata => b"rvfi_pc_rdata",
            Field::PcWdata => b"rvfi_pc_wdata",
            Field::MemAddr => b"rvfi_mem_addr",
            Field::MemRmask => b"rvfi_mem_rmask",
            Field::MemWmask => b"rvfi_mem_wmask",
            Field::MemRdata => b"rvfi_mem_rdata",
            Field::MemWdata => b"rvfi_mem_wdata",
            Field::ImemAddr => b"imem_addr",
            Field::ImemData => b"imem_data",
            Field::DmemAddr => b"dmem_addr",
        }
    }

    /// In bits; of a channel's field for one channel.
    pub fn width(self) -> u32
        ensures { result ≡ fields.field_width self }
    {
        match self {
            Field::Valid | Field::Trap | Field::Halt | Field::Intr => 1,
            Field::Order => 64,
            Field::Insn
            | Field::Rs1Rdata
            | Field::Rs2Rdata
            | Field::RdWdata
            | Field::PcRdata
            | Field::PcWdata
            | Field::MemAddr
            | Field::MemRdata
            | Field::MemWdata
            | Field::ImemAddr
            | Field::DmemAddr => 32,
            Field::Rs1Addr | Field::Rs2Addr | Field::RdAddr => 5,
            Field::MemRmask | Field::MemWmask => 4,
            Field::ImemData => 16,
        }
    }

    /// Whether each channel has it.
    pub(crate) fn is_per_channel(self) -> bool
        ensures { result ≡ fields.is_per_channel self }
    {
        !matches!(self, Field::ImemAddr | Field::ImemData | Field::DmemAddr)
    }
}
