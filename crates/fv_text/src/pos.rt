/// A place in a text. File 0 is the configuration. Lines and columns count from 1, columns in bytes; a number that
/// would pass `2^32 - 1` is `2^32 - 1`. Places compare by file, then line, then column.
#[derive(Debug, Clone, Copy, PartialEq, Eq, PartialOrd, Ord)]
pub struct Pos {
    pub file: u32,
    pub line: u32,
    pub col: u32,
}
