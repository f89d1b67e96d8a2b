/// In which words questions are reported.
#[derive(Debug, Clone, Copy, PartialEq, Eq)]
pub enum Wording {
    /// Those of `run`: files and a line of each check, and counts behind them.
    Run,
    /// Those of `bench`, with the number of words of its design: the files of spent checks, and one line of counts.
    Bench(u32),
    /// Those of `cover`: files and a line of each target, and counts behind them.
    Cover,
    /// Those of `run` for the checks of Zba and Zbs, of which no note and no skipped depth line is told.
    Zb,
}
