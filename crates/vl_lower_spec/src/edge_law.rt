//! Registers and memories that have in the next cycle the numbers of a map: definitions, and a law, without code.
ghost use Rattle.vl_lower_spec.specs.Edges.{NextStatesAreNext};

/// Where each register's next node has the named bits of a map, and each word of each memory is written with the number
/// of its name, the next state is that of the map.
pub fn next_states_are_next()
    ensures { NextStatesAreNext }
{}
