use fv_text::List;
use lrat_check::Step;

/// How a search ends.
#[derive(Debug, Drop)]
pub enum Found {
    /// These values make the formula true, that of variable 1 first.
    Model(List<bool>),
    /// These steps refute the formula.
    Refuted(List<Step>),
    /// The budget is used up: these steps derive as many new clauses.
    Spent(List<Step>),
}
