ghost use Rattle.std.specs.Prelude.{◌≡◌, ◌++◌, ◌≤◌, OnOk, IsErrOf};
ghost use Rattle.fv_base.specs.Events.{put_events};
ghost use Rattle.fv_base.specs.Outside.{OutState, Rose, Appends, AppendsPart, UnlessNotPut};

use thiserror::Error;

/// Why bytes could not be put out.
#[derive(Debug, Drop, Error)]
pub enum OutFault {
    #[error("the output could not be written")]
    Failed,
    #[error("no memory is left")]
    Memory,
}

/// A place where bytes are put one behind the other.
pub trait Out {
    /// What is known of the output: the bytes put so far, where that is told, how often calls failed, and what was put.
    ghost state: { Self → OutState };

    /// Appends the bytes. A failed call appends a prefix of them.
    fn put(&mut self, bytes: &[u8]) -> Result<(), OutFault>
        ensures ok { OnOk result (Appends (state self.old).sent (state self.new).sent bytes.now) }
        ensures failed { IsErrOf result OutFault.Failed → Rose (state self.old).faults (state self.new).faults }
        ensures part { IsErrOf result OutFault.Failed
            → AppendsPart (state self.old).sent (state self.new).sent bytes.now }
        ensures memory { IsErrOf result OutFault.Memory → (state self.new).sent ≡ (state self.old).sent }
        ensures quiet { UnlessNotPut result ((state self.new).faults ≡ (state self.old).faults) }
        ensures grow { (state self.old).faults ≤ (state self.new).faults }
        ensures taken { (state self.new).taken ≡ (state self.old).taken ++ put_events bytes.now result };
}
