//! For each choice of what is free in a cycle, one map of all names holds in a design whose drivers stand in order.
ghost use Rattle.std.specs.Prelude.{◌≡◌, ℕ, All, List};
ghost use Rattle.vl_mean.specs.FlatLaw.{IsLawful};
ghost use Rattle.vl_mean.specs.FlatParts.{parts_of};
ghost use Rattle.vl_mean.specs.Runs.{Agrees, ChoosesAlike, Each, Holds, InRange};
ghost use Rattle.vl_mean.specs.declared.driver.Driver.{Driver};
ghost use Rattle.vl_mean.specs.declared.driver.Start.{Start};
ghost use Rattle.vl_flow_spec.specs.Refusals.{HasNoRefusal, IsLoop};
ghost use Rattle.vl_flow_spec.specs.Sequence.{IsSequence};
ghost use Rattle.vl_size.specs.Size.{Values};
ghost use Rattle.vl_size.specs.Table.{AreApart, AreDifferent, IsShaped};
ghost use Rattle.vl_size.specs.declared.decl.Decl.{Decl};

/// Where no driver is refused and the others stand in a sequence, there is a map that holds for each choice of numbers
/// for inputs, free names and kept bits.
#[tactic(auto, using(crate::proofs::Held::has_map))]
pub fn each_choice_has_a_map()
    ensures { (ds : List Decl) (drivers : List Driver) (starts : List Start) → All IsShaped ds → AreDifferent ds
        → AreApart ds → IsLawful ds drivers starts → HasNoRefusal ds drivers
        → (sequence : List ℕ) → IsSequence ds drivers sequence
        → (v : Values) → Each (λ d. InRange v d d.class) ds
        → (u : Values) × Holds (parts_of ds drivers starts) u × ChoosesAlike (parts_of ds drivers starts) u v }
{}

/// Any two maps that hold with one choice agree on each declared name but the clock.
pub fn a_choice_has_one_map()
    ensures { (ds : List Decl) (drivers : List Driver) (starts : List Start) → All IsShaped ds → AreDifferent ds
        → AreApart ds → IsLawful ds drivers starts → HasNoRefusal ds drivers
        → (sequence : List ℕ) → IsSequence ds drivers sequence
        → (u v : Values) → Holds (parts_of ds drivers starts) u → Holds (parts_of ds drivers starts) v
        → ChoosesAlike (parts_of ds drivers starts) u v → Agrees (parts_of ds drivers starts) u v }
{}

/// Drivers that stand in an order have no loop.
pub fn an_order_has_no_loop()
    ensures { (ds : List Decl) (drivers : List Driver) (sequence : List ℕ) → IsSequence ds drivers sequence
        → (first : Driver) (others : List Driver) → IsLoop ds drivers first others → ⊥ }
{}
