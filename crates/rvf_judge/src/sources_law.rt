//! That a judgement on a design without hierarchy is one on the design that the source writes: laws, without code.
ghost use Rattle.rvf_judge.specs.Sources.{InductionsAreTheSources, InductionsDependOnMaps};
ghost use Rattle.rvf_judge.specs.Sources.{JudgementsAreTheSources, JudgementsDependOnMaps};

use bm_decide::Search;

/// Parts with the same maps and the same declarations have the same judgements, by any search.
#[tactic(auto, using(crate::proofs::SourcesJudging::by_maps))]
pub fn judgements_depend_on_maps<S: Search>(search: &S)
    ensures { JudgementsDependOnMaps (S.more search.now) }
{
    let _ = search;
}

/// What a question of a design without hierarchy comes to, it comes to of the design that this is drawn from.
#[tactic(auto, using(crate::proofs::SourcesJudging::of_the_source))]
pub fn judgements_are_the_sources<S: Search>(search: &S)
    ensures { JudgementsAreTheSources (S.more search.now) }
{
    let _ = search;
}

/// Parts with the same maps and the same declarations have the same inductions, by any search.
#[tactic(auto, using(crate::proofs::SourcesInducting::by_maps))]
pub fn inductions_depend_on_maps<S: Search>(search: &S)
    ensures { InductionsDependOnMaps (S.more search.now) }
{
    let _ = search;
}

/// What a check of a design without hierarchy comes to by induction, it comes to of the design that this is drawn from.
#[tactic(auto, using(crate::proofs::SourcesInducting::of_the_source))]
pub fn inductions_are_the_sources<S: Search>(search: &S)
    ensures { InductionsAreTheSources (S.more search.now) }
{
    let _ = search;
}
