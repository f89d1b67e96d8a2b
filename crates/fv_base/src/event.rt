use fv_text::Text;

/// What passed between a program and the outside: a call that was answered.
#[derive(Debug, Drop)]
pub enum Event {
    /// The name of a file that was read, and the bytes that it gave.
    Gave(Text, Text),
    /// The name of a file that isn't there.
    Lacked(Text),
    /// The name of a file whose reading failed.
    Failed(Text),
    /// The name of a file that was written whole, and the bytes that it was given.
    Wrote(Text, Text),
    /// Bytes that were put out whole.
    Put(Text),
}

/// The same, of bytes that stand elsewhere.
#[derive(Clone, Copy)]
pub(crate) enum Happening<'a> {
    Gave(&'a [u8], &'a [u8]),
    Lacked(&'a [u8]),
    Failed(&'a [u8]),
    Wrote(&'a [u8], &'a [u8]),
    Put(&'a [u8]),
}
