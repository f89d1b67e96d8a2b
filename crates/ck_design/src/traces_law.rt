//! The trace of a run of a design, and the law that a net's traces are those of its design: definitions and laws,
//! without code.
ghost use Rattle.ck_design.specs.Traces.{TracesAreTheDesigns, TracesHaveDumps};

/// The trace of a net's run, with any choices, is that of the design's run with these choices.
pub fn traces_are_the_designs()
    ensures { TracesAreTheDesigns }
{}

/// The trace of a net's run has a value-change dump.
pub fn traces_have_dumps()
    ensures { TracesHaveDumps }
{}
