ghost use Rattle.std.specs.Prelude.{◌≡◌, find};
ghost use Rattle.std.specs.Str.{bytes_eq};
ghost use Rattle.ck_cfg.specs.Section.{section_name, section_named};
ghost use Rattle.ck_cfg.specs.declared.section.Section.TheVariants.{KindDefines};

use crate::kind::CheckKind;

/// A section of a configuration.
#[derive(Debug, Clone, Copy, PartialEq, Eq)]
pub(crate) enum Section {
    Options,
    Depth,
    Defines,
    KindDefines(CheckKind),
    VerilogFiles,
    ScriptSources,
    Csrs,
    Sort,
    Assume,
}

impl Section {
    const ALL: [Section; 18] = [
        Section::Options,
        Section::Depth,
        Section::Defines,
        Section::KindDefines(CheckKind::Insn),
        Section::KindDefines(CheckKind::Ill),
        Section::KindDefines(CheckKind::Reg),
        Section::KindDefines(CheckKind::PcFwd),
        Section::KindDefines(CheckKind::PcBwd),
        Section::KindDefines(CheckKind::Causal),
        Section::KindDefines(CheckKind::Unique),
        Section::KindDefines(CheckKind::Liveness),
        Section::KindDefines(CheckKind::Imem),
        Section::KindDefines(CheckKind::Dmem),
        Section::VerilogFiles,
        Section::ScriptSources,
        Section::Csrs,
        Section::Sort,
        Section::Assume,
    ];

    #[tactic(auto, unfolding(crate::specs::Section::section_name))]
    fn name(self) -> &'static [u8]
        ensures { result.now ≡ section_name self }
    {
        match self {
            Section::Options => b"options",
            Section::Depth => b"depth",
            Section::Defines => b"defines",
            Section::KindDefines(kind) => defines_name(kind),
            Section::VerilogFiles => b"verilog-files",
            Section::ScriptSources => b"script-sources",
            Section::Csrs => b"csrs",
            Section::Sort => b"sort",
            Section::Assume => b"assume",
        }
    }

    /// The section of this name. None exactly where there is none.
    #[tactic(auto, unfolding(crate::specs::Section::section_named))]
    pub(crate) fn of_name(name: &[u8]) -> Option<Section>
        ensures { result ≡ section_named name.now }
    {
        section_among(&Section::ALL, name)
    }
}

fn section_among(sections: &[Section], name: &[u8]) -> Option<Section>
    ensures { result ≡ find (λ s. bytes_eq (section_name s) name.now) sections.now }
{
    sections
        .iter()
        .copied()
        .find(|section| section.name() == name)
}

#[tactic(auto, unfolding(crate::specs::Section::section_name, crate::specs::Kind::kind_name))]
fn defines_name(kind: CheckKind) -> &'static [u8]
    ensures { result.now ≡ section_name (KindDefines kind) }
{
    match kind {
        CheckKind::Insn => b"defines insn",
        CheckKind::Ill => b"defines ill",
        CheckKind::Reg => b"defines reg",
        CheckKind::PcFwd => b"defines pc_fwd",
        CheckKind::PcBwd => b"defines pc_bwd",
        CheckKind::Causal => b"defines causal",
        CheckKind::Unique => b"defines unique",
        CheckKind::Liveness => b"defines liveness",
        CheckKind::Imem => b"defines imem",
        CheckKind::Dmem => b"defines dmem",
    }
}
