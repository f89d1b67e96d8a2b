/// What a turn of a search comes to.
#[derive(Debug, Clone, Copy)]
pub(crate) enum Turn {
    /// The search goes on.
    On,
    /// The values make the formula true.
    Satisfied,
    /// The steps refute the formula.
    Refuted,
    /// The steps derive as many clauses as the budget.
    Spent,
}
