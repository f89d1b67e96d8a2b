//! What holds of the tables as a whole, each as a clause of a function that does nothing.

ghost use Rattle.rv_table.specs.Laws as laws;

/// No word matches two rows.
#[tactic(auto, using(crate::proofs::Unique::unique))]
pub fn at_most_one_row_matches()
    ensures { laws.AtMostOneRowMatches }
{}

/// Each row stands in the list of rows at its number.
#[tactic(auto, using(crate::proofs::Places::row_at))]
pub fn each_row_is_at_its_number()
    ensures { laws.EachRowIsAtItsNumber }
{}

/// The word of a row with any registers and immediate matches that row, and so does each compressed row's expansion
/// match the row that the table names for it.
#[tactic(auto, using(crate::proofs::Expansions::words_match))]
pub fn expansions_match_their_rows()
    ensures assembled { laws.AssembledWordsMatch }
    ensures expansions { laws.ExpansionsMatch }
{}

/// A compressed row has the effect of its expansion, with length 2.
#[tactic(auto, using(crate::proofs::LawLemmas::does_as_expansion))]
pub fn compressed_rows_do_as_their_expansions()
    ensures { laws.CompressedRowsDoAsTheirExpansions }
{}

/// Division by zero, overflow, and the dividend by quotient and remainder.
#[tactic(auto, using(crate::proofs::DivisionLemmas::divides))]
pub fn division_is_the_manuals()
    ensures { laws.DividesAsTheManualSays }
{}
