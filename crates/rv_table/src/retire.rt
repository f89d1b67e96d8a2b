/// The extensions beside RV32I.
#[derive(Debug, Clone, Copy, PartialEq, Eq)]
pub struct Isa {
    /// Multiplication and division.
    pub m: bool,
    /// Compressed instructions.
    pub c: bool,
}

/// What a core may choose, and what its checks may replace.
#[derive(Debug, Clone, Copy, PartialEq, Eq)]
pub struct Opts {
    /// Memory is reached by whole aligned words, and a misaligned access traps.
    pub aligned: bool,
    /// The results of M are those of this project's table of alternative operations.
    pub altops: bool,
    /// Compressed instructions are there, so jumps to any half word are lawful.
    pub c: bool,
}

/// One retired instruction, as a core tells it over the RISC-V Formal Interface.
#[derive(Debug, Clone, Copy, PartialEq, Eq)]
pub struct Retire {
    pub order: u64,
    /// The word, or the half word with 16 zeros above it.
    pub insn: u32,
    pub trap: bool,
    pub halt: bool,
    pub intr: bool,
    /// Below 32, as the next two.
    pub rs1_addr: u32,
    pub rs2_addr: u32,
    pub rd_addr: u32,
    pub rs1_rdata: u32,
    pub rs2_rdata: u32,
    pub rd_wdata: u32,
    pub pc_rdata: u32,
    pub pc_wdata: u32,
    pub mem_addr: u32,
    /// One bit for each byte, the lowest for the lowest byte; below 16, as the next one.
    pub mem_rmask: u32,
    pub mem_wmask: u32,
    pub mem_rdata: u32,
    pub mem_wdata: u32,
}

/// What an instruction reads and writes. A number that it doesn't set is 0.
#[derive(Debug, Clone, Copy, PartialEq, Eq)]
pub struct Effect {
    /// 0 where the instruction doesn't read a first source; below 32, as the next two.
    pub rs1_addr: u32,
    pub rs2_addr: u32,
    pub rd_addr: u32,
    pub rd_wdata: u32,
    pub pc_wdata: u32,
    pub mem_addr: u32,
    /// One bit for each byte of the word at `mem_addr`; below 16, as the next one.
    pub rmask: u32,
    pub wmask: u32,
    pub wdata: u32,
    pub trap: bool,
}
