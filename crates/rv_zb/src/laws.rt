//! What holds of the rows as a whole, each as a clause of a function that does nothing.

ghost use Rattle.rv_zb.specs.Laws as laws;

/// No word matches two rows.
#[tactic(auto, using(crate::proofs::Unique::unique))]
pub fn at_most_one_zb_row_matches()
    ensures { laws.AtMostOneZbRowMatches }
{}

/// No word matches a row of these and one of RV32I, M and C.
#[tactic(auto, using(crate::proofs::Unique::none_of_base))]
pub fn no_row_of_the_base_matches()
    ensures { laws.NoRowOfTheBaseMatches }
{}

/// Each row stands in the list of rows at its number.
#[tactic(auto, using(crate::proofs::Places::row_at))]
pub fn each_zb_row_is_at_its_number()
    ensures { laws.EachZbRowIsAtItsNumber }
{}

/// The effect is the same under all options.
#[tactic(auto, using(crate::proofs::Effects::no_part))]
pub fn options_play_no_part()
    ensures { laws.OptionsPlayNoPart }
{}
