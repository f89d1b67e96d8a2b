//! What a conflict teaches: a clause that is the resolvent of its hints, new to unit propagation, and forces a literal
//! where the trail is cut to, unless the search begins anew.
#![tactic(auto)]

mod analysis;
mod learner;
mod learning;
mod lit_set;
mod shortening;

pub use analysis::Learnt;
pub use learner::Learner;
