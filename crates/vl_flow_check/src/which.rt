ghost use Rattle.std.specs.Prelude.{◌≡◌};
ghost use Rattle.vl_flow_check.specs.Rows.{picks};

/// Which drivers count.
#[derive(Debug, Clone, Copy, PartialEq, Eq)]
pub(crate) enum Which {
    All,
    Clocked,
    /// Those that aren't clocked.
    Settled,
}

impl Which {
    pub(crate) fn picks(self, is_clocked: bool) -> bool
        ensures { result ≡ picks self is_clocked }
    {
        match self {
            Which::All => true,
            Which::Clocked => is_clocked,
            Which::Settled => !is_clocked,
        }
    }
}
