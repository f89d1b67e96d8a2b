//! That rows, options, retirements and effects may be shared among threads.

use crate::retire::{Effect, Isa, Opts, Retire};
use crate::row::RowId;

fn is_shared<T: Send + Sync>(_value: &T) {}

pub(crate) fn rows_are_shared(row: &RowId, isa: &Isa, opts: &Opts) {
    is_shared(row);
    is_shared(isa);
    is_shared(opts);
}

pub(crate) fn retirements_are_shared(retire: &Retire, effect: &Effect) {
    is_shared(retire);
    is_shared(effect);
}
