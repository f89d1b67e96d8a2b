use std::sync::Arc;

/// Who holds the bytes of a text: the text alone, or all that share them.
#[derive(Debug, Drop)]
pub(crate) enum Held {
    Alone(Vec<u8>),
    Shared(Arc<Vec<u8>>),
}
