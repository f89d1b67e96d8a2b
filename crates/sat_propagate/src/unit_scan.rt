/// What the clauses come to under a trail.
#[derive(Debug, Clone, Copy)]
pub enum Scan {
    /// The clause at this place is false.
    Conflict(usize),
    /// The clause at this place forces the literal.
    Unit(usize, i64),
    /// Each clause has a true literal or two different open ones.
    Settled,
}
