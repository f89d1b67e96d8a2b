//! What is kept between two looks, each as a clause of a function that does nothing.

ghost use Rattle.sat_propagate.specs.Laws as laws;

/// An entry may come behind all that were gone through; a decision only where all is calm, as it is where `next` finds
/// all settled.
pub fn kept_as_entries_come()
    ensures { laws.KeptAsEntriesCome }
{}

/// The trail may be cut to what is older than a decision.
pub fn kept_as_the_trail_is_cut()
    ensures { laws.KeptAsTheTrailIsCut }
{}
