//! What is read: the texts of files, and lines of the configuration.

ghost use Rattle.std.specs.Prelude.{◌≡◌};
ghost use Rattle.vl_text.specs.Texts.{line_seen, text_seen};

/// A text with the number of its file and that of its first line. File 0 is the configuration: such a text is one of
/// its lines, and is lexed as if a line's end stood behind it.
#[derive(Debug, Clone, Copy)]
pub struct SourceText<'a> {
    pub file: u32,
    pub line: u32,
    pub bytes: &'a [u8],
}

/// An expression that is assumed in each cycle: a line of the configuration.
#[derive(Debug, Clone, Copy)]
pub struct Assumption<'a> {
    pub line: u32,
    pub expression: &'a [u8],
}

impl<'a> Assumption<'a> {
    /// The line as a text.
    pub(crate) fn text(self) -> SourceText<'a>
        ensures { text_seen result ≡ line_seen self.entry }
    {
        SourceText {
            file: 0,
            line: self.line,
            bytes: self.expression,
        }
    }
}
