use crate::list::List;
use crate::text::Text;

/// A name of a trace, with its width in bits.
#[derive(Debug, Drop)]
pub struct TraceName {
    pub text: Text,
    pub width: u32,
}

/// The values of names over cycles: for each cycle one value for each name, in the order of `names`.
#[derive(Debug, Drop)]
pub struct Trace {
    pub names: List<TraceName>,
    pub cycles: List<List<u128>>,
}
