//! How many inputs, registers and words of memories a design without hierarchy comes to: a law, without code.
ghost use Rattle.vl_lower_cell_laws.specs.Few.{SourcesAreFew};

/// No more than frames of its runs allow.
pub fn sources_are_few()
    ensures { SourcesAreFew }
{}
