ghost use Rattle.std.specs.Prelude.{◌≡◌};
ghost use Rattle.rvf_report.specs.Status.{code_of};

/// How a run of the program ended. Each has its exit code, in this order from 0.
#[derive(Debug, Clone, Copy, PartialEq, Eq)]
pub enum Status {
    /// All checks pass.
    Passed,
    /// A check fails.
    Failing,
    /// No check fails, and a search used up its budget.
    Spent,
    /// The words of the command line aren't understood.
    Usage,
    /// The configuration is refused.
    Config,
    /// The Verilog text is refused.
    Source,
    /// A file that is to be read isn't there.
    Absent,
    /// A file could not be read.
    ReadFault,
    /// A file or the output could not be written.
    WriteFault,
    /// The design is too large for its checks.
    Heavy,
    /// A certificate is refused.
    Refused,
    /// No memory was left.
    Memory,
}

impl Status {
    /// The exit code of the program.
    pub fn code(self) -> u8
        ensures { result ≡ code_of self }
    {
        self as u8
    }
}
