//! Which questions fail by their answers.

ghost use Rattle.std.specs.Prelude.{◌≡◌};
ghost use Rattle.rvf_checks.specs.Counting as counting;

use ck_ask::Question;
use rv_table::RowId;
use rvf_judge::Judged;

fn is_found(judged: &Judged) -> bool
    ensures { result ≡ counting.is_found judged.now }
{
    matches!(judged, Judged::Found(_))
}

fn is_never(judged: &Judged) -> bool
    ensures { result ≡ counting.is_never judged.now }
{
    matches!(judged, Judged::Never(_))
}

/// No run meets the assumptions that a target without a row seeks.
fn is_unmet(row: Option<RowId>, judged: &Judged) -> bool
    ensures { result ≡ counting.is_unmet row judged.now }
{
    match row {
        None => is_never(judged),
        Some(_) => false,
    }
}

/// A check, or a row of Zba or Zbs, fails where some run gives what is sought; a target without a row where none does.
pub(crate) fn fails(question: &Question, judged: &Judged) -> bool
    ensures { result ≡ counting.fails question.now judged.now }
{
    match question {
        Question::Check(_) | Question::Zb(_) => is_found(judged),
        Question::Target(target) => is_unmet(target.row, judged),
    }
}
