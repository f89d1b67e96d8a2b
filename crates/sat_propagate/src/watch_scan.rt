/// What the held clauses come to under a trail.
#[derive(Debug, Clone, Copy)]
pub enum Scan {
    /// The clause with this id is false.
    Conflict(u64),
    /// The clause with this id forces the literal.
    Unit(u64, i64),
    /// Each clause has a true literal or two different open ones.
    Settled,
}
