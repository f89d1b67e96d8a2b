//! What a line of the cases says.

/// A line of the cases, by its first characters.
#[derive(Clone, Copy)]
pub enum Line<'a> {
    /// `% NAME`: the lines that follow are a piece of text.
    Piece(&'a str),
    /// `%NAME`: the piece stands here.
    Use(&'a str),
    /// `@ NAME`: the lines that follow are a file.
    File(&'a str),
    /// `! file N`: call N on the files fails.
    FailingFile(u64),
    /// `! put N`: call N on the output fails.
    FailingPut(u64),
    /// `! room N`: so many bytes are reserved for what each run puts.
    Room(u64),
    /// `$ WORDS`: a run over the files.
    Run(&'a str),
    /// `? WORDS`: a run of whose lines the first words alone are told.
    RunInBrief(&'a str),
    /// `& WORDS`: a run whose first check waits for the second one; whether it met it is told.
    RunToMeet(&'a str),
    /// `> WORDS`: a run of which the dumps are told too.
    RunWithDumps(&'a str),
    /// `~ WORDS`: a run of which the names are told too that the notes of the clause files have.
    RunWithNames(&'a str),
    /// `* N TEXT`: the text so many times, without an end of its line.
    Repeat(u64, &'a str),
    /// `+ N M TEXT`: the text once for each number from N to M, which stands at each `#`; a line ends at each `|`.
    Numbered(u64, u64, &'a str),
    /// `.`: the files go.
    End,
    /// `# ..`
    Comment,
    Text(&'a str),
}

/// The number that the text is, or the one that no call reaches.
fn number(text: &str) -> u64 {
    text.parse::<u64>().unwrap_or(u64::MAX)
}

pub(crate) fn line_of(text: &str) -> Line<'_> {
    if let Some(name) = text.strip_prefix("% ") {
        return Line::Piece(name);
    }
    if let Some(name) = text.strip_prefix("%") {
        return Line::Use(name);
    }
    if let Some(name) = text.strip_prefix("@ ") {
        return Line::File(name);
    }
    if let Some(call) = text.strip_prefix("! file ") {
        return Line::FailingFile(number(call));
    }
    if let Some(call) = text.strip_prefix("! put ") {
        return Line::FailingPut(number(call));
    }
    if let Some(bytes) = text.strip_prefix("! room ") {
        return Line::Room(number(bytes));
    }
    if let Some(words) = text.strip_prefix("$ ") {
        return Line::Run(words);
    }
    if let Some(words) = text.strip_prefix("? ") {
        return Line::RunInBrief(words);
    }
    if let Some(words) = text.strip_prefix("& ") {
        return Line::RunToMeet(words);
    }
    if let Some(words) = text.strip_prefix("> ") {
        return Line::RunWithDumps(words);
    }
    if let Some(words) = text.strip_prefix("~ ") {
        return Line::RunWithNames(words);
    }
    if let Some(repeated) = text.strip_prefix("* ") {
        let (count, text) = repeated.split_once(' ').unwrap_or((repeated, ""));
        return Line::Repeat(number(count), text);
    }
    if let Some(numbered) = text.strip_prefix("+ ") {
        let (first, rest) = numbered.split_once(' ').unwrap_or((numbered, ""));
        let (last, text) = rest.split_once(' ').unwrap_or((rest, ""));
        return Line::Numbered(number(first), number(last), text);
    }
    if text.starts_with("# ") {
        return Line::Comment;
    }
    if text == "." {
        return Line::End;
    }
    Line::Text(text)
}
