//! Where a net has the sources of a design, and its cells have their numbers, each of its cycles begins with a map that
//! names what is free in it: a definition and the law, without code.
ghost use Rattle.vl_lower_state.specs.Begins.{SourcesBeginCycles};

/// Numbers of a cycle of the last net are those of one of the first net, and its cells have those of such a map.
pub fn sources_begin_cycles()
    ensures { SourcesBeginCycles }
{}
