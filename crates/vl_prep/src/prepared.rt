//! What preprocessing has come to: the macros, what was put out, and the refusal that is answered.

ghost use Rattle.vl_prep.specs.Macros.{held};
ghost use Rattle.vl_prep.specs.Quiet.{AreQuiet};

use crate::macros::Macros;
use crate::quiet::Quiet;
use crate::refusal::Refusal;
use fv_text::{List, Token};
use std::alloc::Global;

#[derive(Drop)]
pub(crate) struct Prepared {
    pub alloc: Global,
    pub macros: Macros,
    pub output: List<Token>,
    /// The least of the refusals that were met.
    pub refusal: Option<Refusal>,
    pub quiet: Quiet,
    /// Whether nothing of the above has changed since this was last set to true.
    pub fresh: bool,
    ghost are_quiet: { AreQuiet quiet (record { macros = held macros; output = output; refusal = refusal }) },
}
