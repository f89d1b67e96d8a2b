//! Of which cells registers and memories are, and that they get these cells of the next cycle: definitions and laws,
//! without code.
ghost use Rattle.vl_lower_state.specs.Next.{RegistersAreNext, WordsAreNext};

/// Where next nodes are gathered from cells that have the numbers of a map, registers get the map's bits.
pub fn registers_are_next()
    ensures { RegistersAreNext }
{}

/// Where cells that have the numbers of a map are written into all words, memories get the map's numbers.
pub fn words_are_next()
    ensures { WordsAreNext }
{}
