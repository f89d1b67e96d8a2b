//! What questions come to by what is loaded of their texts.

ghost use Rattle.std.specs.Prelude.{◌≡◌, ◌<◌, IfOk};
ghost use Rattle.rvf_case.specs.Cases.{IsReady};
ghost use Rattle.rvf_checks.specs.Answers.{IsAnswerAt, name_at};

use bm_decide::Search;
use fv_text::Memory;
use rvf_case::Case;
use rvf_judge::{Judged, judge};
use std::alloc::Global;

/// Answers the question at a place; past the last one there is none.
pub(crate) fn judge_at<S: Search>(
    alloc: Global,
    search: &S,
    case: &Case,
    budget: u64,
    place: usize,
) -> Result<Judged, Memory>
    requires can { S.can_find search.now }
    requires ready { IsReady case.now }
    requires budget { 0 < budget }
    ensures { IfOk result (IsAnswerAt (S.more search.now) case.now budget place) }
{
    let Some(question) = case.questions.get(place) else {
        return Err(Memory);
    };
    let Some(loaded) = case.loaded_for(question) else {
        unreachable!()
    };
    judge(
        alloc,
        search,
        &loaded.net,
        &loaded.names,
        &loaded.port,
        question,
        loaded.opts,
        budget,
    )
}

/// The name of the question at a place; past the last one there is none.
pub(crate) fn name_at(case: &Case, place: usize) -> &[u8]
    ensures { result.now ≡ name_at case.now.questions place }
{
    match case.questions.get(place) {
        Some(question) => question.name().bytes(),
        None => &[],
    }
}
