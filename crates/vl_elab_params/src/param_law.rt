//! Parameters that are entered one behind the other.
ghost use Rattle.std.specs.Prelude.{◌≡◌, ℕ, List, Option};
ghost use Rattle.vl_mean.specs.Declarations.{with_constants};
ghost use Rattle.vl_mean.specs.Scopes.{Scope};
ghost use Rattle.vl_mean.specs.Walk.{Contents};
ghost use Rattle.vl_elab_spec.specs.Meanings.{Names, all_later, meaning_of};
ghost use Rattle.vl_elab_scope.specs.Seen.{AreNamed};
ghost use Rattle.vl_elab_scope.specs.Alike.{Alike};
ghost use Rattle.vl_elab_const.specs.declared.given.Value.{Value};
ghost use Rattle.vl_elab_const.specs.Given.{IsGiven};
ghost use Rattle.vl_elab_const.specs.Numbers.{HaveNumbers};
ghost use Rattle.vl_elab_params.specs.Among.{among_parameters, constants_of};
ghost use Rattle.vl_elab_params.specs.Entered.{entered};

/// Where each parameter is added behind those before it, with what is known of it over the names so far and with its
/// number over the numbers so far, names mean what the definitions say where the shapes of a scope are read, and
/// constants have the numbers of the scope's constants.
pub fn entered_parameters_are_those_defined()
    ensures names { (s : Scope) (c : Contents) (behind : Names) (outer around beneath : List Names) (ss : List Scope)
        → ((text : List ℕ) → meaning_of behind text ≡ meaning_of (all_later c) text) → AreNamed behind
        → Alike around outer → HaveNumbers beneath ss → (given : List ℕ → Option Value) → IsGiven given c.overrides
        → s.constants ≡ constants_of ss c
        → Alike (entered given c.parameters c.items behind around beneath).names (among_parameters s outer outer c) }
    ensures numbers { (s : Scope) (c : Contents) (behind : Names) (outer around beneath : List Names)
        (ss : List Scope) → ((text : List ℕ) → meaning_of behind text ≡ meaning_of (all_later c) text)
        → AreNamed behind → Alike around outer → HaveNumbers beneath ss → (given : List ℕ → Option Value)
        → IsGiven given c.overrides → s.constants ≡ constants_of ss c
        → HaveNumbers (entered given c.parameters c.items behind around beneath).numbers
        (with_constants s.constants ss) }
{}
