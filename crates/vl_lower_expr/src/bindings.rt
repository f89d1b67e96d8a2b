use crate::place::Place;
use vl_mean::Env;
use vl_size::Decls;
use wn_net::NodeId;

/// What the names of a design stand for: one place for each declaration. The clock is a vector too.
#[derive(Clone, Copy)]
pub struct Bindings<'a> {
    pub decls: &'a Decls,
    pub places: &'a [Place],
    pub cells: &'a [NodeId],
    /// Some environment: constants have one value over each.
    pub env: &'a Env,
}
