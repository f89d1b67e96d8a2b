ghost use Rattle.std.specs.Prelude.{◌≡◌};
ghost use Rattle.ck_cfg.specs.Kind.{kind_name, kinds, is_kind};

/// What a check is about (documentation of riscv-formal; imem and dmem in this project's form). The order is that of
/// the list of checks.
#[derive(Debug, Clone, Copy, PartialEq, Eq)]
pub enum CheckKind {
    /// An instruction of one row of the instruction table.
    Insn,
    /// The word of 16 zero bits.
    Ill,
    /// Registers are read as they were written.
    Reg,
    /// The program counter goes on where the earlier instruction left it.
    PcFwd,
    /// The earlier instruction left the program counter where the next one found it.
    PcBwd,
    /// No instruction reads a register before it is written.
    Causal,
    /// No order is retired twice.
    Unique,
    /// What comes next is retired in time.
    Liveness,
    /// Words come from the instruction memory.
    Imem,
    /// Bytes are read from memory as they were written.
    Dmem,
}

impl CheckKind {
    const ALL: [CheckKind; 10] = [
        CheckKind::Insn,
        CheckKind::Ill,
        CheckKind::Reg,
        CheckKind::PcFwd,
        CheckKind::PcBwd,
        CheckKind::Causal,
        CheckKind::Unique,
        CheckKind::Liveness,
        CheckKind::Imem,
        CheckKind::Dmem,
    ];

    /// The kinds in the order of the list of checks.
    pub fn all() -> &'static [CheckKind]
        ensures { result.now ≡ kinds }
    {
        &CheckKind::ALL
    }

    /// The name in `checks.cfg` and in the names of checks.
    #[tactic(auto, unfolding(crate::specs::Kind::kind_name))]
    pub fn name(self) -> &'static [u8]
        ensures { result.now ≡ kind_name self }
    {
        match self {
            CheckKind::Insn => b"insn",
            CheckKind::Ill => b"ill",
            CheckKind::Reg => b"reg",
            CheckKind::PcFwd => b"pc_fwd",
            CheckKind::PcBwd => b"pc_bwd",
            CheckKind::Causal => b"causal",
            CheckKind::Unique => b"unique",
            CheckKind::Liveness => b"liveness",
            CheckKind::Imem => b"imem",
            CheckKind::Dmem => b"dmem",
        }
    }

    pub fn is(self, other: CheckKind) -> bool
        ensures { result ≡ is_kind self other }
    {
        self.name() == other.name()
    }
}
