use fv_text::{List, Pos};

/// How drivers stand.
#[derive(Drop)]
pub enum Found {
    /// The numbers of those that aren't clocked, each behind all that drive what it reads.
    InOrder(List<u32>),
    /// The places of drivers, each of which reads what the next one drives, and the last what the first does.
    Loop(List<Pos>),
}
