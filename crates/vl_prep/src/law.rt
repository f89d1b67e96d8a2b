//! What the definition token by token means in the standard's words.

ghost use Rattle.std.specs.Prelude.{◌≡◌, List, Ok, Err};
ghost use Rattle.fv_text.specs.declared.token.Token.{Token};
ghost use Rattle.vl_prep.specs.declared.fault.PrepFault.{PrepFault};
ghost use Rattle.vl_prep.specs.Macros.{Held};
ghost use Rattle.vl_prep.specs.Prep.{Outcome, preprocessed};
ghost use Rattle.vl_prep.specs.Groups.{IsPreprocessed, IsRefused};

/// Tokens are accepted exactly where they form nested groups in which nothing is refused, and then exactly that comes
/// of them which their chosen groups say, each use of a macro replaced by what comes of its text there (IEEE
/// 1364-2005, clause 19). They are refused exactly where the reading of their groups meets a refusal, with the least
/// that it meets.
pub fn groups_decide()
    ensures accepted { (macros : Held) (tokens : List Token) (r : Outcome) → preprocessed macros tokens ≡ Ok r
        → IsPreprocessed macros tokens r }
    ensures accepted_alone { (macros : Held) (tokens : List Token) (r : Outcome) → IsPreprocessed macros tokens r
        → preprocessed macros tokens ≡ Ok r }
    ensures refused { (macros : Held) (tokens : List Token) (f : PrepFault) → preprocessed macros tokens ≡ Err f
        → IsRefused macros tokens f }
    ensures refused_alone { (macros : Held) (tokens : List Token) (f : PrepFault) → IsRefused macros tokens f
        → preprocessed macros tokens ≡ Err f }
{}
