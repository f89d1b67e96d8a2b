use fv_text::List;
use lrat_check::Step;

/// How a search may end.
#[derive(Debug, Drop)]
pub enum Guess {
    /// These values may make the formula true, that of variable 1 first.
    Model(List<bool>),
    /// These steps may refute the formula.
    Steps(List<Step>),
}
