//! What a line `proved NAME K` means: a law, without code.
ghost use Rattle.rvf_core.specs.ProvedLaw.{ProofsAreMeant};

/// Of an answer of `run`, under the words `induct CFG OUTDIR`: where a line `proved NAME K` was put, what was read are
/// the configuration and its files, the configuration has a check with this name, and each assumed run of the design
/// that its text writes, up to any cycle from 1 on, has its property in this cycle.
pub fn proofs_are_meant()
    ensures { ProofsAreMeant }
{}
