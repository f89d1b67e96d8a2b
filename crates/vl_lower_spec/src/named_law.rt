//! Inputs, registers and memories of a net as bits of a design's names: definitions, and the law that they are what is
//! free in a map, without code.
ghost use Rattle.vl_lower_spec.specs.Sources.{NamedSourcesAreFree};

/// Where inputs, registers and memories are bits of free names, and each free bit is one of theirs, their numbers are
/// what is free in a map, and they begin and change as the design's do.
pub fn named_sources_are_free()
    ensures { NamedSourcesAreFree }
{}
