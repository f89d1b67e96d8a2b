ghost use Rattle.std.specs.Prelude.{◌≡◌};

use ck_cfg::CfgFault;
use fv_text::{List, Memory, Text};
use rvf_load::LoadFault;

/// Why the questions of a configuration aren't answered: the first cause in the order of work.
#[derive(Drop)]
pub enum Refusal {
    /// The file with this name isn't held.
    Absent(Text),
    /// The file with this name could not be read.
    Unread(Text),
    Config(CfgFault),
    /// The configuration has no check with this name, which is asked for.
    NoCheck(Text),
    /// A part refuses a text; beside it the names of the files by their numbers, that of the configuration first.
    Source(LoadFault, List<Text>),
    /// A design is too heavy for the question with this name, by this number: its weight times one more than the
    /// question's last cycle.
    Heavy(Text, u64),
    Memory,
}

impl From<Memory> for Refusal {
    ghost use Rattle.rvf_case.specs.declared.refusal.Refusal.TheVariants as refusal;

    ghost from_gives = { λ _ e. e ≡ refusal.Memory };

    fn from(_fault: Memory) -> Refusal {
        Refusal::Memory
    }
}
