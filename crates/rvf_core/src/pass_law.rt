//! What a line `pass NAME` means: a law, without code.
ghost use Rattle.rvf_core.specs.PassLaw.{PassesAreMeant};

/// Of an answer of `run`, under the words `run CFG OUTDIR`: where a line `pass NAME` was put, what was read are the
/// configuration and its files, the configuration has a check with this name, and each assumed run of the design that
/// its text writes has its property.
pub fn passes_are_meant()
    ensures { PassesAreMeant }
{}
