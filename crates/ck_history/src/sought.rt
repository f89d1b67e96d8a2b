#![tactic(auto, using(wn_net::proofs::Laws::additions, crate::proofs::Laws::truths))]
/// How the key of an entry that is sought stands to the own one.
#[derive(Debug, Clone, Copy, PartialEq, Eq)]
pub enum KeyTest {
    Below,
    Above,
    /// Less by one.
    Before,
    /// Greater by one.
    Behind,
    Same,
}

/// What its small number is.
#[derive(Debug, Clone, Copy, PartialEq, Eq)]
pub enum SmallTest {
    Any,
    /// The own one.
    Same,
    Zero,
    /// The own one, or its word is.
    OneOfTwo,
    /// One with this bit, from 0 to 3.
    Bit(u32),
}

/// Where an entry that is sought agrees with the own one.
#[derive(Debug, Clone, Copy, PartialEq, Eq)]
pub enum WordTest {
    Never,
    /// In its word.
    Whole,
    /// In this byte of its word, from 0 to 3, the lowest first.
    Byte(u32),
}

/// What is sought, and what is asked of it.
#[derive(Debug, Clone, Copy, PartialEq, Eq)]
pub struct Sought {
    pub key: KeyTest,
    pub small: SmallTest,
    pub word: WordTest,
}
