ghost use Rattle.std.specs.Prelude.{◌≡◌, ◌++◌, ◌≤◌, OnOk, IfOk, IsErrOf};
ghost use Rattle.fv_base.specs.Events.{read_events, write_events};
ghost use Rattle.fv_base.specs.Outside.{FilesState, Rose, ReadGives, Lacks, Holds, HoldsPart, SameFiles, UnlessFailed};

use std::alloc::Global;
use thiserror::Error;

/// Why a call on a file gave no answer.
#[derive(Debug, Drop, Error)]
pub enum FileFault {
    /// No file has the name.
    #[error("no such file")]
    Absent,
    #[error("a file could not be read or written")]
    Failed,
    #[error("no memory is left")]
    Memory,
}

/// Files by name. A name is its list of bytes.
pub trait Files {
    /// What is known of the files: what they hold, where that is told, how often calls failed or a name wasn't held,
    /// and what was read and written.
    ghost state: { Self → FilesState };

    /// The bytes of the named file.
    fn read(&mut self, alloc: Global, name: &[u8]) -> Result<Vec<u8>, FileFault>
        ensures bytes { IfOk result (λ bytes. ReadGives (state self.old).held name.now bytes.items) }
        ensures absent { IsErrOf result FileFault.Absent → Lacks (state self.old).held name.now }
        ensures missed { IsErrOf result FileFault.Absent → Rose (state self.old).misses (state self.new).misses }
        ensures failed { IsErrOf result FileFault.Failed → Rose (state self.old).faults (state self.new).faults }
        ensures quiet { UnlessFailed result ((state self.new).faults ≡ (state self.old).faults) }
        ensures kept { SameFiles (state self.old).held (state self.new).held }
        ensures faults_grow { (state self.old).faults ≤ (state self.new).faults }
        ensures misses_grow { (state self.old).misses ≤ (state self.new).misses }
        ensures heard { (state self.new).heard ≡ (state self.old).heard ++ read_events name.now result }
        ensures unwritten { (state self.new).written ≡ (state self.old).written };

    /// Makes the name hold the bytes. A failed call leaves what the name held, or a prefix of the bytes there.
    fn write(&mut self, alloc: Global, name: &[u8], bytes: &[u8]) -> Result<(), FileFault>
        ensures ok { OnOk result (Holds (state self.old).held (state self.new).held name.now bytes.now) }
        ensures failed { IsErrOf result FileFault.Failed → Rose (state self.old).faults (state self.new).faults }
        ensures part { IsErrOf result FileFault.Failed
            → HoldsPart (state self.old).held (state self.new).held name.now bytes.now }
        ensures memory { IsErrOf result FileFault.Memory → SameFiles (state self.old).held (state self.new).held }
        ensures never_absent { IsErrOf result FileFault.Absent → ⊥ }
        ensures quiet { UnlessFailed result ((state self.new).faults ≡ (state self.old).faults) }
        ensures faults_grow { (state self.old).faults ≤ (state self.new).faults }
        ensures misses_kept { (state self.new).misses ≡ (state self.old).misses }
        ensures unheard { (state self.new).heard ≡ (state self.old).heard }
        ensures written { (state self.new).written
            ≡ (state self.old).written ++ write_events name.now bytes.now result };
}
