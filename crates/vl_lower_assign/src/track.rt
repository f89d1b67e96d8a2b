use fv_text::List;
use wn_net::MemWrite;

/// A write to words in a row that stand in cells.
#[derive(Debug, Clone, Copy)]
pub(crate) struct WordsWrite {
    /// The cell of the first word.
    pub(crate) first: usize,
    /// How many words.
    pub(crate) count: usize,
    /// Its address counts from the first word.
    pub(crate) write: MemWrite,
}

/// A word of a memory whose words stand in cells.
#[derive(Debug, Clone, Copy)]
pub(crate) struct MemoryWord {
    /// The cell of the memory's first word.
    pub(crate) first: usize,
    /// How many words the memory has.
    pub(crate) count: usize,
    /// Of this word, counted from the first.
    pub(crate) address: u32,
}

/// The cells of a memory of the net, and the writes that lead from its words to the cells of the next cycle.
#[derive(Debug, Drop)]
pub struct Track {
    /// The first of its cells.
    pub first: usize,
    /// How many cells it has.
    pub count: usize,
    /// The oldest first; none where a cell was written in another way than by one write for the whole memory or for one
    /// word of it.
    pub writes: Option<List<MemWrite>>,
}
